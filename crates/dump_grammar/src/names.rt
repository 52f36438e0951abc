ghost use Rattle.std.specs.Prelude.{◌≡◌};
ghost use Rattle.std.specs.List.{list_any};
ghost use Rattle.std.specs.Str.{bytes_eq};
ghost use Rattle.dump_grammar.specs.ChainLines.{built_in, is_among, passing, target_words};

/// Whether the text is one of these.
pub(crate) fn any_of(names: &[&[u8]], text: &[u8]) -> bool
    ensures { result ≡ list_any (λ name. bytes_eq name.now text.now) names.now }
{
    names.iter().any(|name| *name == text)
}

static BUILT_IN: [&[u8]; 3] = [b"INPUT", b"FORWARD", b"OUTPUT"];

static PASSING: [&[u8]; 7] = [
    b"LOG",
    b"NFLOG",
    b"ULOG",
    b"MARK",
    b"CONNMARK",
    b"TCPMSS",
    b"SET",
];

static ENDING: [&[u8]; 4] = [b"ACCEPT", b"DROP", b"REJECT", b"RETURN"];

/// Whether the text is the name of a built-in chain.
pub(crate) fn is_built_in(text: &[u8]) -> bool
    ensures { result ≡ is_among built_in text.now }
{
    any_of(&BUILT_IN, text)
}

/// Whether the text is the word of a target that never ends the walk.
pub(crate) fn is_passing(text: &[u8]) -> bool
    ensures { result ≡ is_among passing text.now }
{
    any_of(&PASSING, text)
}

/// Whether the text is the word of a target.
pub(crate) fn is_target_word(text: &[u8]) -> bool
    ensures { result ≡ is_among target_words text.now }
{
    any_of(&ENDING, text) || is_passing(text)
}
