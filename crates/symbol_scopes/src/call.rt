//! What a caller noted: one `Call` for each note.

ghost use Rattle.std.specs.Prelude.{◌≡◌, ◌≤◌, List, ℕ, length};
ghost use Rattle.symbol_scopes.specs.ScopeMarks.{bindings_of, use_of, successor_of};
ghost use Rattle.symbol_scopes.specs.Calls as spec;

/// The two kinds of names that regions define.
#[derive(Clone, Copy)]
pub enum NameKind {
    Values,
    Labels,
}

/// What is said of a name.
#[derive(Clone, Copy)]
pub enum Said {
    Define {
        place: u32,
        count: u32,
    },
    Use {
        place: u32,
        number: u32,
        number_place: u32,
    },
    Label {
        place: u32,
        block: u32,
    },
    LeadTo {
        place: u32,
    },
    DefineAlias {
        is_type: bool,
        place: u32,
    },
    MentionAlias {
        is_type: bool,
        place: u32,
    },
}

/// One thing that a text says. A name is its number among the names.
#[derive(Clone, Copy)]
pub enum Call {
    Enter,
    Leave,
    BadPack { place: u32 },
    Name { name: u32, said: Said },
}

impl Said {
    /// The number that a name of this kind is defined with: the size of its pack, or its block.
    pub fn defined(self, kind: NameKind) -> Option<u32>
        ensures { result ≡ spec.defined kind self }
    {
        match (kind, self) {
            (NameKind::Values, Said::Define { count, .. }) => Some(count),
            (NameKind::Labels, Said::Label { block, .. }) => Some(block),
            _ => None,
        }
    }

    /// How many names of this kind it defines.
    pub fn definitions(self, kind: NameKind) -> usize
        ensures count { (name round : List ℕ) →
            result ≡ length (bindings_of kind round (spec.said_mark name self)) }
        ensures most { result ≤ 1 }
    {
        match self.defined(kind) {
            Some(_) => 1,
            None => 0,
        }
    }

    /// How many uses of a value name it is.
    pub fn uses(self) -> usize
        ensures count { (name : List ℕ) → result ≡ length (use_of (spec.said_mark name self)) }
        ensures most { result ≤ 1 }
    {
        match self {
            Said::Use { .. } => 1,
            _ => 0,
        }
    }

    /// How many successors it is.
    pub fn successors(self) -> usize
        ensures count { (name : List ℕ) →
            result ≡ length (successor_of (spec.said_mark name self)) }
        ensures most { result ≤ 1 }
    {
        match self {
            Said::LeadTo { .. } => 1,
            _ => 0,
        }
    }
}

impl Call {
    /// How many names of this kind it defines.
    pub fn definitions(self, kind: NameKind) -> usize
        ensures count { (ns : List (List ℕ)) (round : List ℕ) →
            result ≡ length (bindings_of kind round (spec.mark_of ns self)) }
        ensures most { result ≤ 1 }
    {
        match self {
            Call::Name { said, .. } => said.definitions(kind),
            _ => 0,
        }
    }

    /// Whether it is a label or a successor.
    pub fn is_of_blocks(self) -> bool
        ensures { result ≡ spec.is_of_blocks self }
    {
        match self {
            Call::Name { said, .. } => matches!(said, Said::Label { .. } | Said::LeadTo { .. }),
            _ => false,
        }
    }
}
