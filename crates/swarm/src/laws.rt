//! Laws of the lists of peers: each function's contract is the law, and its body is empty.

ghost use Rattle.std.specs.Prelude.{◌≡◌, ℕ, All, List, None, Some, find, if◌then◌else◌, true};
ghost use Rattle.std.specs.List.{IsDistinct};
ghost use Rattle.ot_base.specs.Same.{same_endpoint};
ghost use Rattle.ot_base.specs.declared.address.Endpoint.{Endpoint};
ghost use Rattle.ot_base.specs.declared.peer.Held.{Held};
ghost use Rattle.swarm.specs.Members.{Expires};
ghost use Rattle.swarm.specs.Peers.{endpoints_of, if_young, is_of, is_young, put_peer, without_peer};

/// After a put the peer is found at its endpoint, and at each other endpoint what was found before.
pub fn found_after_put()
    ensures { (peer : Held) (peers : List Held) (e : Endpoint) →
        find (is_of e) (put_peer peer peers) ≡
        (if same_endpoint e peer.who then Some peer else find (is_of e) peers) }
{}

/// After a taking nothing is found at its endpoint, and at each other endpoint what was found
/// before.
pub fn found_after_take()
    ensures { (who : Endpoint) (peers : List Held) (e : Endpoint) →
        IsDistinct same_endpoint (endpoints_of peers) →
        find (is_of e) (without_peer who peers) ≡
        (if same_endpoint e who then None else find (is_of e) peers) }
{}

/// After the time has moved on, what was found before is found at each endpoint, if it is young.
pub fn found_after_advance()
    ensures { (time : ℕ) (old new : List Held) (e : Endpoint) →
        IsDistinct same_endpoint (endpoints_of old) → Expires time old new →
        All (λ peer. is_young time peer ≡ true) new →
        find (is_of e) new ≡ if_young time (find (is_of e) old) }
{}
