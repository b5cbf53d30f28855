use crate::commands::{Command, Expected};
use crate::naming::{Base, Named};
use crate::outputs::{background_text, laxity_text, verdict_text};
use crate::printing::{refused_line, round_line};
use crate::words::command_of;
use refusals::kinds::{LaxityRefusal, Refusal};
use schedules::verdict::Miss;
use searches::search::Round;
use std::alloc::{AllocError, Global};
use std::test::Fail;

// Two tasks that fill the processor.
const FULL: &[u8] = b"C,D,T,P1,P2,S\r\n2,4,4,2,0,4\r\n3,6,6,3,1,5\r\n";

fn words(heap: Global, texts: &[&str]) -> Result<Vec<String>, AllocError> {
    let mut words = Vec::new(heap);
    for text in texts {
        words.push(String::from_str(heap, *text)?)?;
    }
    Ok(words)
}

fn ordering_of(word: &str) -> Option<Named> {
    word.parse().ok()
}

#[test]
fn a_name_is_read_back(rt: HostRuntime) {
    let named = Named::Background(Base::Deadline);
    assert_eq!(rt; named.name(), "background-over-deadline");
    assert_eq!(rt; ordering_of("background-over-deadline"), Some(named));
    assert_eq!(rt;
        ordering_of("two-phase"),
        Some(Named::Plain(Base::TwoPhase))
    );
    assert_eq!(rt; ordering_of("promotion-over-"), None);
    assert_eq!(rt; ordering_of("Fixed"), None);
}

#[test]
fn words_that_are_a_command(rt: HostRuntime) -> Result<(), Fail> {
    let verdict = words(rt.alloc(), &["verdict", "promotion-over-fixed"])?;
    let named = Named::Promotion(Base::Fixed);
    assert_eq!(rt; command_of(&verdict), Ok(Command::Verdict(named)));
    let search = words(rt.alloc(), &["search", "two-phase"])?;
    assert_eq!(rt; command_of(&search), Ok(Command::Search(Base::TwoPhase)));
    let background = words(rt.alloc(), &["background"])?;
    assert_eq!(rt; command_of(&background), Ok(Command::Background));
    Ok(())
}

#[test]
fn words_that_are_none(rt: HostRuntime) -> Result<(), Fail> {
    let none = words(rt.alloc(), &[])?;
    assert_eq!(rt; command_of(&none), Err(Expected::ACommand));
    let bare = words(rt.alloc(), &["verdict"])?;
    assert_eq!(rt; command_of(&bare), Err(Expected::AnOrdering));
    let layered = words(rt.alloc(), &["search", "promotion-over-fixed"])?;
    assert_eq!(rt; command_of(&layered), Err(Expected::ABase));
    let more = words(rt.alloc(), &["laxity", "fixed"])?;
    assert_eq!(rt; command_of(&more), Err(Expected::NoMore));
    Ok(())
}

#[test]
fn rounds_and_refusals(rt: HostRuntime) {
    let miss = Miss {
        task: 3,
        instant: 814,
    };
    assert_eq!(rt;
        round_line(1, Round::Lowered(1)).bytes(),
        b"1,lowered,1,\r\n".as_slice()
    );
    assert_eq!(rt;
        round_line(70, Round::Held).bytes(),
        b"70,held,,\r\n".as_slice()
    );
    assert_eq!(rt;
        round_line(133, Round::Stuck(miss)).bytes(),
        b"133,stuck,3,814\r\n".as_slice()
    );
    let refusal = Refusal::Laxity(LaxityRefusal::NoResponse(1));
    assert_eq!(rt;
        refused_line(&refusal).bytes(),
        b"answer,task,refusal,record,field\r\nrefused,1,12,,\r\n".as_slice()
    );
}

#[test]
fn texts_of_a_full_table(rt: HostRuntime) {
    assert_eq!(rt;
        verdict_text(FULL, Named::Plain(Base::TwoPhase)).bytes(),
        b"ordering,answer,task,instant,hyperperiod,refusal,record,field\r\ntwo-phase,holds,,,12,,,\r\n".as_slice()
    );
    assert_eq!(rt; background_text(FULL).bytes(), b"task\r\n".as_slice());
    assert_eq!(rt;
        laxity_text(FULL).bytes(),
        b"answer,task,refusal,record,field\r\nrefused,1,12,,\r\n".as_slice()
    );
}
