// Each case replays a list of productions, or bytes that are no such list.
use crate::sample::{FIFTEEN, LEAVES, PACK};
use grammar::load;
use replay::{ReplayStop, replay};
use std::test::Fail;

// What a replay into an output of sixteen places answers.
fn replayed(commands: &[u8]) -> Result<Result<usize, ReplayStop>, Fail> {
    let grammar = load(PACK)?;
    let mut output = [99; 16];
    Ok(replay(&grammar, commands, &mut output))
}

#[test]
fn answers(rt: HostRuntime) -> Result<(), Fail> {
    let grammar = load(PACK)?;
    let mut output = [99; 4];
    assert_eq!(rt;
        replay(&grammar, &[0x10, 0, 6, 0x10, 0, 1], &mut output),
        Ok(3)
    );
    assert!(rt; output == [11, 20, 20, 99]);
    Ok(())
}

#[test]
fn stops_on_bytes(rt: HostRuntime) -> Result<(), Fail> {
    assert_eq!(rt;
        replayed(&[0x10, 0, 1, 0x10])?,
        Err(ReplayStop::Uneven { length: 4 })
    );
    assert_eq!(rt;
        replayed(&[0x11, 0, 1])?,
        Err(ReplayStop::NoCommand { at: 0 })
    );
    assert_eq!(rt;
        replayed(&[0x10, 0, 6, 0x10, 0, 9])?,
        Err(ReplayStop::NoProduction { at: 3 })
    );
    Ok(())
}

#[test]
fn stops_on_arguments(rt: HostRuntime) -> Result<(), Fail> {
    assert_eq!(rt; replayed(&[0x10, 0, 0])?, Err(ReplayStop::TooFew { at: 0 }));
    assert_eq!(rt;
        replayed(&[0x10, 0, 0, 0x10, 0, 4])?,
        Err(ReplayStop::WrongCategory { at: 0 })
    );
    Ok(())
}

#[test]
fn stops_at_the_end(rt: HostRuntime) -> Result<(), Fail> {
    assert_eq!(rt; replayed(&[])?, Err(ReplayStop::NotOne { yields: 0 }));
    assert_eq!(rt;
        replayed(&[0x10, 0, 1])?,
        Err(ReplayStop::NotStart { category: 2 })
    );
    let grammar = load(PACK)?;
    let mut output = [99; 2];
    assert_eq!(rt;
        replay(&grammar, &[0x10, 0, 6, 0x10, 0, 1], &mut output),
        Err(ReplayStop::NoRoom { tokens: 3 })
    );
    assert!(rt; output == [99, 99]);
    Ok(())
}

// Fifteen leaves and sixteen; and the commands of a tree of fifteen tokens.
#[test]
fn holds_fifteen_tokens(rt: HostRuntime) -> Result<(), Fail> {
    let leaves: &[u8] = LEAVES;
    assert_eq!(rt;
        replayed(&leaves[3..48])?,
        Err(ReplayStop::NotOne { yields: 15 })
    );
    assert_eq!(rt; replayed(leaves)?, Err(ReplayStop::TooLong { at: 0 }));
    assert_eq!(rt; replayed(FIFTEEN)?, Ok(15));
    Ok(())
}
