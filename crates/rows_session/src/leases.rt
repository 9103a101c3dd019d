//! Sessions beside each other, of a server that grants leases, in an order of turns where one is named: what
//! each line is given, and how many rests the server took meanwhile.

use crate::gate::TurnGate;
use lbfs_server::serve::{ServeError, Served, serve};
use row_text::out::Out;
use std::alloc::Global;
use std::sync::{Arc, Wait};
use std::thread::Threads;
use trial_outside::outside::around;
use trial_outside::port::{Port, PortEnd};
use trial_outside::trial::Trial;

/// How long a lease lasts, in milliseconds.
const TERM: u32 = 1000;

/// What came of serving.
fn put_served(served: Result<Served, ServeError>, out: &mut Out) {
    match served {
        Ok(Served { sessions, front }) => {
            out.text(" sessions");
            out.number(u64::from(sessions));
            out.text(" journal");
            out.number(front);
        }
        Err(ServeError::Store) => out.text(" store"),
        Err(_) => out.lack(),
    }
}

/// What comes of a row: the port's lines are served, each in a session of its own.
pub fn put<R: Threads + Wait + Sync + Send + Copy + Drop>(
    rt: &R,
    alloc: Global,
    port: &Arc<Port>,
    trial: &Trial<'_>,
    out: &mut Out,
) {
    match around(*rt, alloc, port, trial, out) {
        Ok((store, end)) => {
            let PortEnd {
                network,
                clock,
                rest,
            } = end;
            let sessions = network.lines.min(64) as u32;
            let gate = TurnGate::new(*rt, alloc, trial, out);
            let (served, store, network) = serve(
                rt, alloc, store, "DIR", network, &clock, &rest, gate, 7000, TERM, sessions,
            );
            drop(store);
            drop(network);
            put_served(served, out)
        }
        Err(_) => out.lack(),
    }
    if trial.setting("counted").is_some() {
        out.text(" rests");
        out.number(port.rests());
    }
    port.put_lines(rt, out)
}
