ghost use Rattle.std.specs.Prelude.{map, string_bytes};
ghost use Rattle.request.specs.Requests.{SpellsOnce};

/// Words spell at most one request.
pub fn one_request(words: &Vec<String>)
    ensures { SpellsOnce (map string_bytes words.now.items) }
{}
