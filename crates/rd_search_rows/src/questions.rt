//! The words of questions: paces and interrupts.

use crate::asserts::assert_same;
use rd_question::handler::{Handler, NoHandler, Said, handler_of};
use rd_question::pace::{NoPace, pace_of};
use std::rt::HostRuntime;
use std::test::Fail;

// A pace by its two numbers, or why there is none.
#[derive(Clone, Copy, Debug, PartialEq)]
enum Paced {
    At(u8, Option<u8>),
    Form,
    Crossed,
}

const PACES: [(&str, Paced); 14] = [
    ("5..20", Paced::At(5, Some(20))),
    ("5..", Paced::At(5, None)),
    ("..20", Paced::At(0, Some(20))),
    ("0..1", Paced::At(0, Some(1))),
    ("255..255", Paced::At(255, Some(255))),
    ("7..6", Paced::Crossed),
    ("..", Paced::Form),
    ("5", Paced::Form),
    ("", Paced::Form),
    ("..0", Paced::Form),
    ("256..", Paced::Form),
    ("..256", Paced::Form),
    ("1..2..3", Paced::Form),
    ("-1..2", Paced::Form),
];

#[test]
fn a_pace_is_read_as_it_is_written(rt: HostRuntime) -> Result<(), Fail> {
    for (word, wanted) in PACES {
        let found = match pace_of(word) {
            Ok(pace) => Paced::At(pace.at_least, pace.at_most),
            Err(NoPace::Form) => Paced::Form,
            Err(NoPace::Crossed) => Paced::Crossed,
        };
        assert_same(&rt, found, wanted);
    }
    Ok(())
}

// An interrupt by how many calls it makes, how often it comes, which one it follows and how far it
// is apart; or why there is none.
#[derive(Clone, Copy, Debug, PartialEq)]
enum Handled {
    As(usize, Option<u8>, Option<usize>, u8),
    Times,
    After,
    Unlimited,
    Apart,
    Other,
}

// What comes of what is said of the second interrupt, where the first comes so often: how often it
// comes, what it follows, and how far it is apart.
type HandlerRow = (
    Option<u8>,
    Option<&'static str>,
    Option<&'static str>,
    Option<&'static str>,
    Handled,
);

const HANDLED: [HandlerRow; 13] = [
    (Some(1), None, None, None, Handled::As(2, Some(1), None, 0)),
    (
        Some(1),
        Some("255"),
        None,
        None,
        Handled::As(2, Some(255), None, 0),
    ),
    (
        Some(1),
        Some("any"),
        None,
        None,
        Handled::As(2, None, None, 0),
    ),
    (Some(1), Some("0"), None, None, Handled::Times),
    (Some(1), Some("256"), None, None, Handled::Times),
    (Some(1), Some("often"), None, None, Handled::Times),
    (
        Some(9),
        Some("3"),
        Some("0"),
        None,
        Handled::As(2, Some(3), Some(0), 0),
    ),
    (Some(9), None, Some("1"), None, Handled::After),
    (Some(9), None, Some("ping"), None, Handled::After),
    (Some(9), Some("any"), Some("0"), None, Handled::Unlimited),
    (None, None, Some("0"), None, Handled::Unlimited),
    (
        Some(1),
        None,
        None,
        Some("10"),
        Handled::As(2, Some(1), None, 10),
    ),
    (Some(1), None, None, Some("256"), Handled::Apart),
];

fn outcome_of(made: Result<Handler, NoHandler>) -> Handled {
    match made {
        Ok(handler) => Handled::As(
            handler.lines.len(),
            handler.times,
            handler.follows,
            handler.apart,
        ),
        Err(NoHandler::Times) => Handled::Times,
        Err(NoHandler::After) => Handled::After,
        Err(NoHandler::Unlimited) => Handled::Unlimited,
        Err(NoHandler::Apart) => Handled::Apart,
        Err(_) => Handled::Other,
    }
}

#[test]
fn an_interrupt_comes_as_it_is_said(rt: HostRuntime) -> Result<(), Fail> {
    let alloc = rt.alloc();
    for (first, times, after, apart, wanted) in HANDLED {
        let mut before = Vec::new(alloc);
        before.push(Handler {
            lines: Vec::new(alloc),
            times: first,
            follows: None,
            apart: 0,
        })?;
        let said = Said {
            calls: "send rx 41;isr  notify gate 0 1 set",
            times,
            after,
            apart,
        };
        let found = outcome_of(handler_of(alloc, said, before.as_slice()));
        assert_same(&rt, found, wanted);
    }
    Ok(())
}

#[test]
fn calls_are_lines_with_one_space_between_words(rt: HostRuntime) -> Result<(), Fail> {
    let alloc = rt.alloc();
    let said = Said {
        calls: "send rx 41;isr  notify gate 0 1 set",
        times: None,
        after: None,
        apart: None,
    };
    let handler = handler_of(alloc, said, &[])?;
    assert_same(&rt, handler.lines.len(), 2);
    for (at, wanted) in [(0, "isr send rx 41"), (1, "isr notify gate 0 1 set")] {
        let is_so = match handler.lines.get(at) {
            Some(line) => line.as_str() == wanted,
            None => false,
        };
        assert_same(&rt, is_so, true);
    }
    Ok(())
}
