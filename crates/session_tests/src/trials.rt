// The trial, event by event.
use super::given::{number, session};
use session::{Event, Outcome, Sessions, Start, Trial};
use std::process::Abort;
use std::test::Fail;

// An event by its numbers.
#[derive(Clone, Copy)]
enum Step {
    Start(u32, u32, u32),
    Confirm,
    Cancel,
    Elapse(u32),
    Close(u32),
}

// An event, and then the outcome, and the trial's owner, persist number and seconds.
type Case = (Step, Outcome, (u32, u32, u32));

const NONE: (u32, u32, u32) = (0, 0, 0);

fn event(step: Step) -> Result<Event, Fail> {
    Ok(match step {
        Step::Start(owner, timeout, persist) => {
            let owner = session(owner)?;
            Event::Started(Start {
                owner,
                timeout,
                persist,
            })
        }
        Step::Confirm => Event::Confirmed,
        Step::Cancel => Event::Cancelled,
        Step::Elapse(seconds) => Event::Elapsed(seconds),
        Step::Close(closed) => Event::Closed(session(closed)?),
    })
}

fn numbers(trial: &Trial) -> (u32, u32, u32) {
    (number(trial.owner()), trial.persist(), trial.seconds())
}

// The trial after all these events.
fn follow(rt: &impl Abort, cases: &[Case]) -> Result<Trial, Fail> {
    let mut trial = Trial::idle();
    for &(step, outcome, expected) in cases {
        assert_eq!(rt; trial.on(event(step)?), outcome);
        assert_eq!(rt; numbers(&trial), expected);
        assert_eq!(rt; trial.is_pending(), expected.2 > 0);
    }
    Ok(trial)
}

const TIMEOUTS: [Case; 9] = [
    (Step::Start(1, 0, 7), Outcome::Nothing, NONE),
    (Step::Start(1, 86_401, 7), Outcome::Nothing, NONE),
    (Step::Start(1, 1, 0), Outcome::Nothing, (1, 0, 1)),
    (Step::Elapse(0), Outcome::Nothing, (1, 0, 1)),
    (Step::Elapse(1), Outcome::Reverted, NONE),
    (Step::Start(8, 86_400, 7), Outcome::Nothing, (8, 7, 86_400)),
    (Step::Elapse(86_399), Outcome::Nothing, (8, 7, 1)),
    (Step::Start(8, 86_400, 7), Outcome::Nothing, (8, 7, 86_400)),
    (Step::Elapse(1_000_000), Outcome::Reverted, NONE),
];

const SECONDS: [Case; 7] = [
    (Step::Start(3, 30, 0), Outcome::Nothing, (3, 0, 30)),
    (Step::Elapse(29), Outcome::Nothing, (3, 0, 1)),
    (Step::Elapse(1), Outcome::Reverted, NONE),
    (Step::Elapse(1), Outcome::Nothing, NONE),
    (Step::Elapse(0), Outcome::Nothing, NONE),
    (Step::Start(3, 30, 0), Outcome::Nothing, (3, 0, 30)),
    (Step::Elapse(31), Outcome::Reverted, NONE),
];

const FOLLOW_UPS: [Case; 7] = [
    (Step::Start(1, 30, 7), Outcome::Nothing, (1, 7, 30)),
    (Step::Start(2, 40, 8), Outcome::Nothing, (2, 8, 40)),
    (Step::Start(3, 0, 9), Outcome::Nothing, (2, 8, 40)),
    (Step::Start(3, 86_401, 9), Outcome::Nothing, (2, 8, 40)),
    (Step::Close(1), Outcome::Nothing, (2, 8, 40)),
    (Step::Start(3, 20, 0), Outcome::Nothing, (3, 0, 20)),
    (Step::Close(3), Outcome::Reverted, NONE),
];

const CLOSES: [Case; 9] = [
    (Step::Close(1), Outcome::Nothing, NONE),
    (Step::Start(1, 30, 0), Outcome::Nothing, (1, 0, 30)),
    (Step::Close(2), Outcome::Nothing, (1, 0, 30)),
    (Step::Close(1), Outcome::Reverted, NONE),
    (Step::Start(1, 30, 7), Outcome::Nothing, (1, 7, 30)),
    (Step::Close(1), Outcome::Nothing, (0, 7, 30)),
    (Step::Close(1), Outcome::Nothing, (0, 7, 30)),
    (Step::Elapse(29), Outcome::Nothing, (0, 7, 1)),
    (Step::Elapse(1), Outcome::Reverted, NONE),
];

const ENDS: [Case; 8] = [
    (Step::Confirm, Outcome::Nothing, NONE),
    (Step::Cancel, Outcome::Nothing, NONE),
    (Step::Start(1, 30, 7), Outcome::Nothing, (1, 7, 30)),
    (Step::Confirm, Outcome::Confirmed, NONE),
    (Step::Confirm, Outcome::Nothing, NONE),
    (Step::Start(1, 30, 7), Outcome::Nothing, (1, 7, 30)),
    (Step::Cancel, Outcome::Reverted, NONE),
    (Step::Elapse(30), Outcome::Nothing, NONE),
];

#[test]
fn timeouts(rt: HostRuntime) -> Result<(), Fail> {
    follow(&rt, &TIMEOUTS)?;
    follow(&rt, &SECONDS)?;
    Ok(())
}

#[test]
fn follow_ups(rt: HostRuntime) -> Result<(), Fail> {
    follow(&rt, &FOLLOW_UPS)?;
    Ok(())
}

#[test]
fn closes(rt: HostRuntime) -> Result<(), Fail> {
    follow(&rt, &CLOSES)?;
    follow(&rt, &ENDS)?;
    Ok(())
}

// The owner of a trial is closed and opened again: the trial goes on, and is not the session's.
#[test]
fn opened_again(rt: HostRuntime) -> Result<(), Fail> {
    let one = session(1)?;
    let mut sessions = Sessions::none();
    sessions.open(one);
    let mut trial = follow(
        &rt,
        &[(Step::Start(1, 30, 7), Outcome::Nothing, (1, 7, 30))],
    )?;
    assert!(rt; trial.is_pending() && !trial.is_owned_elsewhere(one));
    assert_eq!(rt; trial.on(Event::Closed(one)), Outcome::Nothing);
    sessions.close(one);
    sessions.open(one);
    assert!(rt; sessions.is_open(one));
    assert!(rt; trial.is_owned_elsewhere(one) && !trial.is_bound_elsewhere(one));
    Ok(())
}

// A trial's owner and persist number, 0 seconds for no trial; a session and the persist number that it gives; whether the trial
// is owned elsewhere, is bound elsewhere, and has another persist number.
const HINDERED: [(Step, (u32, u32), (bool, bool, bool)); 8] = [
    (Step::Start(1, 30, 0), (1, 0), (false, false, false)),
    (Step::Start(1, 30, 0), (1, 7), (false, false, true)),
    (Step::Start(1, 30, 0), (2, 0), (true, true, false)),
    (Step::Start(1, 30, 7), (1, 0), (false, false, true)),
    (Step::Start(1, 30, 7), (2, 7), (true, false, false)),
    (Step::Start(1, 30, 7), (2, 8), (true, false, true)),
    (Step::Cancel, (2, 0), (false, false, false)),
    (Step::Cancel, (2, 7), (false, false, true)),
];

#[test]
fn hindered(rt: HostRuntime) -> Result<(), Fail> {
    for (step, (by, given), expected) in HINDERED {
        let mut trial = Trial::idle();
        assert_eq!(rt; trial.on(event(step)?), Outcome::Nothing);
        let by = session(by)?;
        let told = (
            trial.is_owned_elsewhere(by),
            trial.is_bound_elsewhere(by),
            trial.persist_differs(given),
        );
        assert_eq!(rt; told, expected);
    }
    Ok(())
}
