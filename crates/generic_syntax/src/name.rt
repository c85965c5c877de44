//! Names.

ghost use Rattle.std.specs.Prelude.{◌≢◌};
ghost use Rattle.grammar.specs.Looks.{any_of, passes};
ghost use Rattle.grammar.specs.Ran.{Took};
ghost use Rattle.generic_syntax.specs.Names.{name_of, word_name};

use crate::cst::NameCst;
use crate::text::name_text;
use attr_value::Text;
use grammar::{SyntaxStop, expect};
use ir_lexer::{Class, TokenSource};
use std::alloc::Global;

/// Takes a name of this class, such as `%x`, and gives it without its sign. Any other token is
/// refused.
pub fn read_name<T: TokenSource>(
    alloc: Global,
    t: &mut T,
    kind: Class,
) -> Result<NameCst, SyntaxStop>
    requires { kind ≢ Class.End }
    ensures { Took (passes (any_of kind)) name_of (T.state t.old) result (T.state t.new) }
{
    let place = t.place();
    let name = name_text(alloc, t.text())?;
    expect(t, kind)?;
    Ok(NameCst { place, name })
}

/// Takes a word that is a name. Any other token is refused.
pub fn read_word<T: TokenSource>(alloc: Global, t: &mut T) -> Result<NameCst, SyntaxStop>
    ensures { Took (passes (any_of Class.Word)) word_name (T.state t.old) result (T.state t.new) }
{
    let place = t.place();
    let name = Text::from_slice(alloc, t.text())?;
    expect(t, Class::Word)?;
    Ok(NameCst { place, name })
}
