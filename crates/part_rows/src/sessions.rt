//! Every call in every state, and which answer of a writer counts.
ghost use Rattle.std.specs.Prelude.{◌≡◌, ◌≤◌, IfOk};
ghost use Rattle.session_core.specs.declared.answers.SessionState.TheVariants.{Started};

use session_core::{Session, SessionFault, SessionState};
use std::test::Fail;
use trace_base::policy::{WriterPolicy, WriterSpec};

const WRITER: WriterSpec = WriterSpec {
    producer: 1,
    buffer: 1,
    policy: WriterPolicy::Drops,
    from: 0,
};

#[derive(Clone, Copy, Debug, PartialEq, Eq)]
enum Call {
    Configure,
    Start,
    Flush,
    Acknowledge,
    Stop,
    Read,
    Free,
}

const CALLS: [Call; 7] = [
    Call::Configure,
    Call::Start,
    Call::Flush,
    Call::Acknowledge,
    Call::Stop,
    Call::Read,
    Call::Free,
];

const STATES: [SessionState; 5] = [
    SessionState::Idle,
    SessionState::Configured,
    SessionState::Started,
    SessionState::Stopped,
    SessionState::Freed,
];

/// The state behind each of the calls, where this one allows it.
fn states_behind(state: SessionState) -> [Option<SessionState>; 7] {
    let configured = Some(SessionState::Configured);
    let started = Some(SessionState::Started);
    let stopped = Some(SessionState::Stopped);
    let freed = Some(SessionState::Freed);
    match state {
        SessionState::Idle => [configured, None, None, None, None, None, None],
        SessionState::Configured => [None, started, None, None, None, None, freed],
        SessionState::Started => [None, None, started, started, stopped, started, freed],
        SessionState::Stopped => [None, None, None, None, None, stopped, freed],
        SessionState::Freed => [None, None, None, None, None, None, None],
    }
}

/// A session of two writers that has made one request.
fn started() -> Result<Session, SessionFault>
    ensures state { IfOk result (λ session. session.state ≡ Started) }
    ensures writers { IfOk result (λ session. session.writers ≡ 2) }
    ensures requests { IfOk result (λ session. session.requests ≡ 1) }
{
    let mut session = Session::new();
    session.configure(&[WRITER; 2])?;
    session.start()?;
    session.flush()?;
    Ok(session)
}

fn session_in(state: SessionState) -> Result<Session, SessionFault>
    ensures writers { IfOk result (λ session. session.state ≡ Started → session.writers ≡ 2) }
    ensures requests { IfOk result (λ session. session.requests ≤ 1) }
{
    match state {
        SessionState::Idle => Ok(Session::new()),
        SessionState::Configured => {
            let mut session = Session::new();
            session.configure(&[WRITER; 2])?;
            Ok(session)
        }
        SessionState::Started => started(),
        SessionState::Stopped => {
            let mut session = started()?;
            session.stop()?;
            Ok(session)
        }
        SessionState::Freed => {
            let mut session = started()?;
            session.free()?;
            Ok(session)
        }
    }
}

fn make_call(session: &mut Session, call: Call) -> Result<(), SessionFault>
    requires writers { session.old.state ≡ Started → session.old.writers ≡ 2 }
    requires requests { session.old.requests ≤ 1 }
{
    match call {
        Call::Configure => session.configure(&[WRITER; 2]),
        Call::Start => session.start(),
        Call::Flush => match session.flush() {
            Ok(_) => Ok(()),
            Err(fault) => Err(fault),
        },
        Call::Acknowledge => session.acknowledge(1, 2, 0),
        Call::Stop => session.stop(),
        Call::Read => session.read(),
        Call::Free => session.free(),
    }
}

#[test]
fn allows_the_calls_of_each_state(rt: HostRuntime) -> Result<(), Fail> {
    for state in STATES {
        let behind = states_behind(state);
        for i in 0..CALLS.len() {
            let mut session = session_in(state)?;
            let answer = make_call(&mut session, CALLS[i]);
            match behind[i] {
                Some(next) => {
                    assert_eq!(rt; answer, Ok(()));
                    assert_eq!(rt; session.state(), next);
                }
                None => {
                    assert_eq!(rt; answer, Err(SessionFault::WrongState { state }));
                    assert_eq!(rt; session.state(), state);
                }
            }
        }
    }
    Ok(())
}

/// Whether the kept answer of writer 1 is one to the second request, with five chunks. Writer 2 has
/// given none.
fn keeps_five(session: &Session) -> bool
    requires { session.now.writers ≡ 2 }
{
    session.answered(1, &[5, 0], &[false, true])
        && session.answered(2, &[5, 0], &[false, true])
        && !session.answered(2, &[4, 0], &[false, true])
        && !session.answered(1, &[5, 0], &[false, false])
}

#[test]
fn keeps_the_first_answer_to_the_newest_request(rt: HostRuntime) -> Result<(), Fail> {
    let mut session = started()?;
    session.flush()?;
    let below = session.acknowledge(0, 1, 5);
    assert_eq!(rt; below, Err(SessionFault::NoSuchFlush { flush: 0 }));
    let above = session.acknowledge(3, 1, 5);
    assert_eq!(rt; above, Err(SessionFault::NoSuchFlush { flush: 3 }));
    assert!(rt; !session.answered(1, &[9, 9], &[false, true]));

    session.acknowledge(2, 1, 5)?;
    assert!(rt; keeps_five(&session));
    session.acknowledge(2, 1, 6)?;
    assert!(rt; keeps_five(&session));
    session.acknowledge(1, 1, 7)?;
    assert!(rt; keeps_five(&session));
    session.stop()?;
    assert!(rt; keeps_five(&session));
    Ok(())
}
