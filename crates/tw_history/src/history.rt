// A history in memory: a name, a table of steps, and one of the nodes that each step takes in turn.

ghost use Rattle.std.specs.Prelude.{◌≡◌};
ghost use Rattle.tw_history.specs.Tables.{IsTable, steps_of_table};

use crate::step::{Nodes, Steps};
use std::marker::Model;
use tw_base::Name;

/// A history: a service's name, its steps, and the nodes of its archive's trees, which each step
/// takes in turn, as many as it counts. The counts add up to the number of nodes, and every field is
/// in the range that a history file gives it: at most 2^40 - 1 steps, at most 1,024 events a step,
/// each of at most 1,024 bytes, the step of a thread 1 to 2^40 - 1, a time at most 2^40 - 1, the step
/// of a node's entry any of 64 bits. Contracts see it as the history that it stands for.
#[derive(Drop, Debug)]
pub struct History {
    pub(crate) name: Name,
    pub(crate) steps: Steps,
    pub(crate) nodes: Nodes,
}

impl Model for History {
    ghost use Rattle.tw_base.specs.history.History.{History as HistoryMeant};

    ghost Value = { HistoryMeant };

    ghost use Rattle.tw_history.specs.Tables.{IsTable};
    ghost use Rattle.tw_history.specs.HistoryOf.{history_of_table};

    ghost view = { history_of_table };

    ghost invariant = { λ h. IsTable h.steps h.nodes };
}

impl History {
    /// The history of these steps and nodes. Takes no memory.
    pub fn new(name: Name, steps: Steps, nodes: Nodes) -> Self
        requires { IsTable steps nodes }
        ensures { result ≡ record { name = name; steps = steps_of_table steps nodes } }
    {
        History { name, steps, nodes }
    }

    /// The service's name.
    pub fn service(&self) -> &Name
        ensures { result.now ≡ self.now.name }
    {
        &self.name
    }
}
