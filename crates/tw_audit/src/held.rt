// The threads held of a proof: its anchors that are held, and the threads that it carries.

ghost use Rattle.std.specs.Prelude.{◌≡◌, ◌++◌, IfOk, OnOk};
ghost use Rattle.std.specs.List.{flat_map};
ghost use Rattle.std.specs.Option.{option_to_list};
ghost use Rattle.tw_base.specs.history.Anchors.{anchor_of};
ghost use Rattle.tw_chain.specs.declared.proof.Proof.TheVariants.{Precedes};
ghost use Rattle.tw_chain.specs.Accepting.{held};
ghost use Rattle.tw_audit.specs.HopHeld.{held_of_hop};

use std::alloc::Global;
use tw_base::{Name, NoMemory, Thread, Threads, find_anchor};
use tw_chain::{HopPart, PrecedenceProof, Proof};

/// Adds the anchor of the service and step, where it is held.
fn add_anchor(
    anchors: &[Thread],
    service: &Name,
    step: u64,
    threads: &mut Threads,
) -> Result<(), NoMemory>
    ensures { OnOk result (threads.new ≡ threads.old ++ option_to_list (anchor_of anchors.now service.now step)) }
{
    match find_anchor(anchors, service, step) {
        None => Ok(()),
        Some(anchor) => threads.push(anchor),
    }
}

/// Adds the thread that the hop carries, or the anchor that binds it.
fn add_hop(anchors: &[Thread], hop: &HopPart, threads: &mut Threads) -> Result<(), NoMemory>
    ensures { OnOk result (threads.new ≡ threads.old ++ held_of_hop anchors.now hop.now) }
{
    let thread = &hop.entry.thread;
    if hop.bind == 0 {
        threads.push(*thread)
    } else {
        add_anchor(anchors, &thread.from, hop.bind, threads)
    }
}

/// Adds what is held of hops, one after another.
fn add_hops(anchors: &[Thread], hops: &[HopPart], threads: &mut Threads) -> Result<(), NoMemory>
    ensures { OnOk result (threads.new ≡ threads.old ++ flat_map (held_of_hop anchors.now) hops.now) }
{
    for hop in hops {
        add_hop(anchors, hop, threads)?;
    }
    Ok(())
}

/// Adds what is held of a proof from event to event.
fn add_chain(
    anchors: &[Thread],
    proof: &PrecedenceProof,
    threads: &mut Threads,
) -> Result<(), NoMemory>
    ensures { OnOk result (threads.new ≡ threads.old ++ held anchors.now (Precedes proof.now)) }
{
    add_anchor(anchors, &proof.head.service, proof.head.top, threads)?;
    add_hops(anchors, proof.hops.as_slice(), threads)
}

/// Adds what is held of a proof.
fn add_held(anchors: &[Thread], proof: &Proof, threads: &mut Threads) -> Result<(), NoMemory>
    ensures { OnOk result (threads.new ≡ threads.old ++ held anchors.now proof.now) }
{
    match proof {
        Proof::Exists(p) => add_anchor(anchors, &p.at.service, p.at.top, threads),
        Proof::Precedes(p) => add_chain(anchors, p, threads),
        Proof::Archived(p) => add_anchor(anchors, &p.at.service, p.at.top, threads),
        Proof::Absent(p) => add_anchor(anchors, &p.at.service, p.at.top, threads),
        Proof::Linked(p) => add_anchor(anchors, &p.service, p.top, threads),
    }
}

/// The anchors that the proof names, those of them that are held, and the threads that it carries, in the
/// order of its bytes: at most 65.
pub(crate) fn held_threads(
    alloc: Global,
    proof: &Proof,
    anchors: &[Thread],
) -> Result<Threads, NoMemory>
    ensures { IfOk result (λ threads. threads ≡ held anchors.now proof.now) }
{
    let mut threads = Threads::new(alloc);
    add_held(anchors, proof, &mut threads)?;
    Ok(threads)
}
