//! Handles of sources, and the futures and operations that wait for them.

use super::{Rig, report};
use futures::task::Poll;
use react_async::async_io::Async;
use react_async::operation::IoAnswer;
use react_core::outside::Fault;
use react_core::reactor::ReactError;
use std::rc::Rc;
use std::test::Fail;

/// The handle 7 of wire 3.
fn handle_in(rig: &mut Rig) -> Result<Async<u8>, ReactError> {
    match Async::new(rig.alloc, &mut rig.reactor, &mut rig.outside, 3, 7) {
        Ok(handle) => Ok(handle),
        Err((_, error)) => Err(error),
    }
}

#[test]
fn a_handle_comes_back_in_every_case(rt: HostRuntime) -> Result<(), Fail> {
    let mut rig = Rig::new(rt.alloc(), 0)?;
    rig.outside.refusals = (Some(Fault::Failed), None);
    let Err(refusal) = Async::new_nonblocking(
        rt.alloc(),
        &mut rig.reactor,
        &mut rig.outside,
        3,
        7u8,
    ) else {
        return Err("the registration was to fail".into());
    };
    assert!(rt; refusal == (7, ReactError::Poller));
    assert!(rt; rig.reactor.is_idle());
    let handle = handle_in(&mut rig)?;
    let key = handle.key();
    assert_eq!(rt; (*handle.get_ref(), handle.wire()), (7, 3));
    assert_eq!(rt; handle.poll_flush(), Poll::Ready(()));
    assert_eq!(rt; handle.poll_close(), Poll::Ready(()));
    assert!(rt; rig.reactor.contains(key));
    rig.outside.refusals = (Some(Fault::Failed), None);
    let (io, removed) = handle.into_inner(&mut rig.reactor, &mut rig.outside);
    assert_eq!(rt; io, 7);
    assert!(rt; removed == Err(ReactError::Poller));
    assert!(rt; !rig.reactor.contains(key));
    Ok(())
}

#[test]
fn a_second_task_wakes_the_first(rt: HostRuntime) -> Result<(), Fail> {
    let mut rig = Rig::new(rt.alloc(), 0)?;
    let handle = handle_in(&mut rig)?;
    let key = handle.key();
    assert!(rt; rig.reactor.contains(key));
    let first = handle.poll_readable(&mut rig.reactor, &mut rig.outside, &mut rig.woken, 5)?;
    assert_eq!(rt; first, Poll::Pending);
    assert_eq!(rt; rig.woken(), (0, 0));
    assert!(rt; rig.reactor.contains(key));
    let second = handle.poll_readable(&mut rig.reactor, &mut rig.outside, &mut rig.woken, 6)?;
    assert_eq!(rt; second, Poll::Pending);
    assert_eq!(rt; rig.woken(), (1, 5));
    assert!(rt; rig.reactor.contains(key));
    let other = handle.poll_writable(&mut rig.reactor, &mut rig.outside, &mut rig.woken, 6)?;
    assert_eq!(rt; other, Poll::Pending);
    assert_eq!(rt;
        (rig.woken(), rig.outside.armed),
        ((1, 5), (key, true, true))
    );
    Ok(())
}

#[test]
fn a_canceled_future_is_armed_no_more(rt: HostRuntime) -> Result<(), Fail> {
    let mut rig = Rig::new(rt.alloc(), 0)?;
    let handle = handle_in(&mut rig)?;
    let key = handle.key();
    let mut reading = handle.readable();
    assert!(rt; rig.reactor.contains(key));
    let first = reading.poll(rig.alloc, &mut rig.reactor, &mut rig.outside, 5)?;
    assert_eq!(rt; first, Poll::Pending);
    assert_eq!(rt; rig.outside.armed, (key, true, false));
    reading.cancel(&mut rig.reactor);
    let mut writing = handle.writable();
    assert!(rt; rig.reactor.contains(key));
    let other = writing.poll(rig.alloc, &mut rig.reactor, &mut rig.outside, 6)?;
    assert_eq!(rt; other, Poll::Pending);
    assert_eq!(rt; rig.outside.armed, (key, false, true));
    let mut again = handle.readable();
    assert!(rt; rig.reactor.contains(key));
    let _asked = again.poll(rig.alloc, &mut rig.reactor, &mut rig.outside, 7)?;
    assert_eq!(rt; rig.outside.armed, (key, true, true), "nobody canceled it");
    again.cancel(&mut rig.reactor);
    writing.cancel(&mut rig.reactor);
    Ok(())
}

#[test]
fn a_future_waits_for_a_later_round(rt: HostRuntime) -> Result<(), Fail> {
    let mut rig = Rig::new(rt.alloc(), 0)?;
    let handle = handle_in(&mut rig)?;
    let key = handle.key();
    let reports = [report(key, true, false)];
    let shared = Rc::new(rt.alloc(), handle)?;
    let mut reading = Async::readable_owned(shared.clone()?);
    assert!(rt; rig.begin(None).is_some());
    assert!(rt; rig.reactor.contains(key));
    let first = reading.poll(rig.alloc, &mut rig.reactor, &mut rig.outside, 5)?;
    assert_eq!(rt; first, Poll::Pending);
    assert!(rt; rig.finish(&reports).is_some());
    assert_eq!(rt; rig.woken(), (1, 5));
    assert!(rt; rig.reactor.contains(key));
    let stale = reading.poll(rig.alloc, &mut rig.reactor, &mut rig.outside, 6)?;
    assert_eq!(rt; stale, Poll::Pending, "the round ran at the first poll");
    assert!(rt; rig.begin(None).is_some());
    assert!(rt; rig.finish(&reports).is_some());
    assert_eq!(rt; rig.woken(), (2, 6));
    assert!(rt; rig.reactor.contains(key));
    let later = reading.poll(rig.alloc, &mut rig.reactor, &mut rig.outside, 6)?;
    assert_eq!(rt; later, Poll::Ready(()));
    assert!(rt; rig.reactor.contains(key));
    let again = reading.poll(rig.alloc, &mut rig.reactor, &mut rig.outside, 6)?;
    assert_eq!(rt; again, Poll::Ready(()), "it stays so");
    let mut writing = Async::writable_owned(shared);
    assert!(rt; rig.reactor.contains(key));
    let other = writing.poll(rig.alloc, &mut rig.reactor, &mut rig.outside, 7)?;
    assert_eq!(rt; other, Poll::Pending);
    assert_eq!(rt;
        rig.outside.armed,
        (key, false, true),
        "what is ready waits for nothing"
    );
    reading.cancel(&mut rig.reactor);
    writing.cancel(&mut rig.reactor);
    Ok(())
}

#[test]
fn an_operation_is_called_again_after_one_pending(rt: HostRuntime) -> Result<(), Fail> {
    let mut rig = Rig::new(rt.alloc(), 0)?;
    let handle = handle_in(&mut rig)?;
    let key = handle.key();
    let mut calls = 0u8;
    let mut reading = handle.read_with(move |io: &u8| {
        calls = calls.saturating_add(1);
        if calls < 2 {
            IoAnswer::NotReady
        } else {
            IoAnswer::Done((*io, calls))
        }
    });
    assert!(rt; rig.reactor.contains(key));
    let first = reading.poll(rig.alloc, &mut rig.reactor, &mut rig.outside, 5)?;
    assert!(rt; first == Poll::Pending);
    assert_eq!(rt; rig.outside.armed, (key, true, false));
    assert!(rt; rig.reactor.contains(key));
    let second = reading.poll(rig.alloc, &mut rig.reactor, &mut rig.outside, 5)?;
    assert!(rt; second == Poll::Ready((7, 2)), "no round ran");
    let mut writing = handle.write_with(|_: &u8| -> IoAnswer<u8> { IoAnswer::NotReady });
    assert!(rt; rig.reactor.contains(key));
    let never = writing.poll(rig.alloc, &mut rig.reactor, &mut rig.outside, 6)?;
    assert!(rt; never == Poll::Pending);
    assert_eq!(rt;
        rig.outside.armed,
        (key, false, true),
        "no future waits for reading"
    );
    writing.cancel(&mut rig.reactor);
    reading.cancel(&mut rig.reactor);
    Ok(())
}
