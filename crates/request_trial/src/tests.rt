use request::{Mode, one_request, spell};
use std::test::Fail;

#[test]
fn words_are_at_most_one_request(rt: HostRuntime) -> Result<(), Fail> {
    let mut words = Vec::new(rt.alloc());
    for text in ["--chain", "A", "check", "--family=6"] {
        words.push(String::from_str(rt.alloc(), text)?)?;
    }
    let request = spell(rt.alloc(), &words)?;
    assert!(rt; matches!(request.mode, Mode::Check));
    assert_eq!(rt; request.chain.as_slice(), b"A".as_slice());
    assert!(rt; request.six);
    one_request(&words);
    Ok(())
}
