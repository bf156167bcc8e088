use cyp_lex::Name;
use std::test::Fail as Failed;

#[test]
fn short_and_long_names_keep_their_bytes(rt: HostRuntime) -> Result<(), Failed> {
    for bytes in [
        b"".as_slice(),
        b"x",
        b"abcdefg",
        b"abcdefgh",
        b"a_name_that_is_longer_than_seven_bytes",
    ] {
        let name = Name::new(rt.alloc(), bytes)?;
        assert_eq!(rt; name.as_slice(), bytes);
        assert_eq!(rt; name.text(rt.alloc())?.as_slice(), bytes);
    }
    Ok(())
}
