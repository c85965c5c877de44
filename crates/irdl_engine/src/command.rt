//! What the words ask for.

ghost use Rattle.std.specs.Prelude.{◌≡◌};
ghost use Rattle.std.specs.Option.{option_map};
ghost use Rattle.irdl_engine.specs.Command.{command_of, print_as, print_of, verify_of};
ghost use Rattle.irdl_engine.specs.Words.{texts, spelled};

use derived_printer::Form;

/// How many definition files a command takes at most.
pub const DEF_LIMIT: usize = 64;

/// What the words can ask for.
#[derive(Drop)]
pub enum Command<'a> {
    /// Read and judge the definition files of these names, in this order.
    Check(&'a [&'a str]),
    /// Read and judge them, and then the module of this name.
    Verify(&'a str, &'a [&'a str]),
    /// Read and judge all of them, and write the module in this form.
    Print(Form, &'a str, &'a [&'a str]),
}

/// What the words behind `verify` ask for.
fn read_verify<'a>(names: &'a [&'a str]) -> Option<Command<'a>>
    ensures { option_map spelled result ≡ verify_of (texts names.now) }
{
    let [name, defs @ ..] = names else {
        return None;
    };
    if defs.len() > DEF_LIMIT {
        return None;
    }
    Some(Command::Verify(name, defs))
}

/// What the words behind `print` and the word of a form ask for.
fn read_print_as<'a>(form: Form, names: &'a [&'a str]) -> Option<Command<'a>>
    ensures { option_map spelled result ≡ print_as form (texts names.now) }
{
    let [name, defs @ ..] = names else {
        return None;
    };
    if defs.len() > DEF_LIMIT {
        return None;
    }
    Some(Command::Print(form, name, defs))
}

/// What the words behind `print` ask for.
fn read_print<'a>(words: &'a [&'a str]) -> Option<Command<'a>>
    ensures { option_map spelled result ≡ print_of (texts words.now) }
{
    let [form, names @ ..] = words else {
        return None;
    };
    if *form == "generic" {
        return read_print_as(Form::Generic, names);
    }
    None
}

/// What the words ask for, or `None` where they fit no form.
pub fn read_command<'a>(words: &'a [&'a str]) -> Option<Command<'a>>
    ensures { option_map spelled result ≡ command_of (texts words.now) }
{
    let [verb, names @ ..] = words else {
        return None;
    };
    if *verb == "check" {
        if names.len() > DEF_LIMIT {
            return None;
        }
        return Some(Command::Check(names));
    }
    if *verb == "verify" {
        return read_verify(names);
    }
    if *verb == "print" {
        return read_print(names);
    }
    None
}
