// Both sides of each bound, the round trip over a seal, and a run in both modes.
use crate::line::{LINE_ROOM, Line};
use crate::run::{Call, Held, run_calls};
use crate::stop::LineStop;
use std::test::Fail;

#[test]
fn the_sixteenth_key_is_stopped(rt: HostRuntime) {
    let mut line = Line::new();
    for token in 0..15u16 {
        assert_eq!(rt; line.key(token), Ok(()));
    }
    assert_eq!(rt; line.key(65535), Err(LineStop::Full));
    assert_eq!(rt; line.tokens().len(), LINE_ROOM);
    assert_eq!(rt; line.tokens().last(), Some(&14));
}

#[test]
fn a_rub_on_no_token_is_stopped(rt: HostRuntime) {
    let mut line = Line::new();
    assert_eq!(rt; line.key(65535), Ok(()));
    assert_eq!(rt; line.rub(), Ok(()));
    assert_eq!(rt; line.rub(), Err(LineStop::Empty));
    assert_eq!(rt; line.tokens(), [].as_slice());
}

#[test]
fn a_seal_keeps_the_tokens_and_a_wipe_drops_them(rt: HostRuntime) {
    let mut line = Line::new();
    assert_eq!(rt; line.key(10), Ok(()));
    assert_eq!(rt; line.key(20), Ok(()));
    let phrase = line.seal();
    assert_eq!(rt; phrase.tokens(), [10, 20].as_slice());
    let mut line = phrase.reopen();
    assert_eq!(rt; line.tokens(), [10, 20].as_slice());
    line.wipe();
    assert_eq!(rt; line.tokens(), [].as_slice());
}

#[test]
fn a_run_skips_what_its_mode_has_not(rt: HostRuntime) -> Result<(), Fail> {
    let ran = run_calls(&[
        Call::Rub,
        Call::Key(10),
        Call::Reopen,
        Call::Seal,
        Call::Key(30),
        Call::Reopen,
        Call::Key(20),
        Call::Seal,
    ]);
    assert_eq!(rt; ran.stopped, 1);
    assert_eq!(rt; ran.unmade, 2);
    match ran.held {
        Held::Open(_) => Err(Fail::new("the line is open")),
        Held::Sealed(phrase) => {
            assert_eq!(rt; phrase.tokens(), [10, 20].as_slice());
            Ok(())
        },
    }
}
