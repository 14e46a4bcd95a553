//! What the nodes of events tell, and what a change leaves of them, said of the rings.

ghost use Rattle.std.specs.Prelude.{◌≡◌, ◌≢◌, ◌+◌, ◌↔◌, ℕ, List, [], ◌∷◌, Some, None, false};
ghost use Rattle.pth_base.specs.declared.event.EventSpec.{EventSpec};
ghost use Rattle.pth_ring.specs.Rings.{is_event, chained, concatenated, isolated, freed, concat_refusal};
ghost use Rattle.pth_ring.specs.Arena.{RingsOf, AreLinked, events_of};
ghost use Rattle.pth_ring.specs.Nodes.{IsApart, IsClear, a_ring_node, next_event, prev_event, ring_node};

/// The nodes of a ring are a circle: `next` is the event with which the ring read from one goes on, and itself where it stands
/// alone; `prev` is the reverse. What is no event has none.
pub fn ring_nodes_are_a_circle()
    ensures next { (e n : ℕ) (rest : List ℕ) (x : RingsOf) → AreLinked x → let y = events_of x in
        y.rings e ≡ e ∷ n ∷ rest → next_event y e ≡ Some n }
    ensures alone { (e : ℕ) (x : RingsOf) → AreLinked x → let y = events_of x in
        y.rings e ≡ e ∷ [] → ring_node y e ≡ Some (a_ring_node e e) }
    ensures prev { (e n : ℕ) (x : RingsOf) → AreLinked x → let y = events_of x in
        next_event y e ≡ Some n → prev_event y n ≡ Some e }
    ensures none { (e : ℕ) (x : RingsOf) → AreLinked x → let y = events_of x in
        (ring_node y e ≡ None) ↔ (is_event y e ≡ false) }
{}

/// Where two rings become one, no node changes but those of the two events and of the ones before them. Where an event enters,
/// none but its own, that of the event behind it and of the one before that; where one leaves, none but its own and those of
/// its two neighbours.
pub fn four_nodes_change()
    ensures concat { (d a b : ℕ) (x : RingsOf) → AreLinked x → let y = events_of x in
        concat_refusal y a b ≡ None → IsClear d a y → IsClear d b y → ring_node (concatenated a b y) d ≡ ring_node y d }
    ensures chain { (d e : ℕ) (spec : EventSpec) (x : RingsOf) → AreLinked x → let y = events_of x in
        d ≢ y.made + 1 → IsClear d e y → ring_node (chained spec e y) d ≡ ring_node y d }
    ensures isolate { (d e : ℕ) (x : RingsOf) → AreLinked x → let y = events_of x in
        IsApart d e y → ring_node (isolated e y) d ≡ ring_node y d }
    ensures free { (d e : ℕ) (x : RingsOf) → AreLinked x → let y = events_of x in
        IsApart d e y → ring_node (freed e y) d ≡ ring_node y d }
{}
