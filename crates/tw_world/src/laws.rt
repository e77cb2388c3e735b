// The laws of worlds: of each one that some schedule leads to, however its lines are told.

ghost use Rattle.std.specs.Prelude.{◌≡◌, Bool, List, ℕ, Option, length};
ghost use Rattle.tw_base.specs.declared.history.thread.Thread.{Thread};
ghost use Rattle.tw_base.specs.format.Formats.{Spells};
ghost use Rattle.tw_base.specs.history.Family.{AllSound, HasThreads};
ghost use Rattle.tw_base.specs.kinds.Lists.{Each, In};
ghost use Rattle.tw_chain.specs.Accepting.{IsAccepted};
ghost use Rattle.tw_chain.specs.Proofs.{proof_layout};
ghost use Rattle.tw_chain.specs.declared.proof.Proof.{Proof};
ghost use Rattle.tw_world.specs.Order.{AnchorsArePresent, BirthsRise, LeadsLater, ReceivedIsPresent, ShowsOrder};
ghost use Rattle.tw_world.specs.Runs.{IsMember, IsReached};
ghost use Rattle.tw_world.specs.Worlds.{Member, World, family};

use tw_base::Hasher;

/// What holds of every world that lines lead to, whatever messages are lost, repeated or forged, whatever crashes come, and whatever times
/// services claim. The function itself does nothing.
pub fn world_laws<H: Hasher>()
    // The history of each service is sound, and there are as many births as steps.
    ensures sound { (may_claim : Option ℕ → Bool) (w : World) → IsReached H.dig may_claim w → AllSound (family w) × Each (λ (m : Member). length m.births ≡ length m.history.steps) w.members }
    // Each service is found by its name, so no two have one; and none has a name that lies.
    ensures names { (may_claim : Option ℕ → Bool) (w : World) → IsReached H.dig may_claim w → Each (λ (m : Member). IsMember w m.history.name m × (In m.history.name w.hostile → ⊥)) w.members }
    // The anchors held are present authenticators of services.
    ensures anchors { (may_claim : Option ℕ → Bool) (w : World) → IsReached H.dig may_claim w → HasThreads H.dig (family w) w.anchors }
    // So are, for every proof, those of them that it needs.
    ensures own_anchors { (may_claim : Option ℕ → Bool) (w : World) (p : Proof) → IsReached H.dig may_claim w → AnchorsArePresent H.dig w w.anchors p }
    // Each thread that a service received of a service has that service's present authenticator at that step.
    ensures present { (may_claim : Option ℕ → Bool) (w : World) → IsReached H.dig may_claim w → ReceivedIsPresent H.dig w }
    // Of two steps of a service the one of the lower number was made first.
    ensures rise { (may_claim : Option ℕ → Bool) (w : World) → IsReached H.dig may_claim w → BirthsRise w }
    // Where hops lead from a step of a service to a step of a service, by at least one hop, the first was made before the second.
    ensures leads { (may_claim : Option ℕ → Bool) (w : World) → IsReached H.dig may_claim w → LeadsLater H.dig w }
    // Where an accepted proof that an event precedes another has hops, the anchors that it needs are present authenticators of services, and
    // the services that it shows threads of are services there, the first event was recorded before the second, or texts of the proof and
    // of the services' histories clash.
    ensures together { (may_claim : Option ℕ → Bool) (w : World) (anchors : List Thread) (bytes : List ℕ) (p : Proof) → IsReached H.dig may_claim w →
        Spells proof_layout bytes p → IsAccepted H.dig anchors p → ShowsOrder H.dig w anchors p }
{}
