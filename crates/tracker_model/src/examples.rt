//! Worked examples of the definitions, each proved by computing it. Histories have the oldest entry
//! first: that one is legal says that each of its answers is right, with these counts and these
//! peers. A and B are torrents, P, Q and R endpoints with IPv4 addresses, and minutes stand first
//! in each entry.

ghost use Rattle.std.specs.Prelude.{[], ◌∷◌, true, false};
ghost use Rattle.ot_base.specs.declared.peer.Mark.TheVariants.{Leecher, Seed, Stopped};
ghost use Rattle.tracker_model.specs.Calls.{IsWellFormed};
ghost use Rattle.tracker_model.specs.Examples.{hash_a, hash_b, peer_p, peer_q, peer_r, peer_six, counts, entry, leech, seed, complete, stop, scrape, scan, row, sync, swarm_full, bucket_full, no_memory, clean, drain, note, limited, synced, empty_bucket, seeded_bucket, stale_bucket, stale_torrent, on};
ghost use Rattle.tracker_model.specs.Grows.{GrowsAlone, GrowsAmong};
ghost use Rattle.tracker_model.specs.Kinds.{IsKindOf};
ghost use Rattle.tracker_model.specs.Legal.{IsLegalHistory, IsRightAfter};
ghost use Rattle.tracker_model.specs.Stands.{IsTidy, StandsFor};
ghost use Rattle.tracker_model.specs.Steps.{StepsTo};
ghost use Rattle.tracker_model.specs.declared.call.Call.TheVariants.{Announce, Stop, Scrape, Scan, Clean, Sync, Drain};
ghost use Rattle.tracker_model.specs.declared.answer.Answer.TheVariants.{Told, SwarmFull, BucketFull, NoMemory};

/// Only a seed completes, at most 200 peers are wanted, and a port isn't 0.
pub fn well_formed_calls()
    ensures most { IsWellFormed (Announce hash_a peer_p true true 200) }
    ensures too_many { IsWellFormed (Announce hash_a peer_p true true 201) → ⊥ }
    ensures no_seed { IsWellFormed (Announce hash_a peer_p false true 50) → ⊥ }
    ensures announce_no_port { IsWellFormed
        (Announce hash_a (record peer_p { port = 0 }) true true 200) → ⊥ }
    ensures stop_no_port { IsWellFormed (Stop hash_a (record peer_p { port = 0 })) → ⊥ }
    ensures sync_no_port { IsWellFormed (Sync hash_a (record peer_p { port = 0 }) Seed) → ⊥ }
    ensures announce_six { IsWellFormed (Announce hash_a peer_six true true 200) → ⊥ }
    ensures stop_six { IsWellFormed (Stop hash_a peer_six) → ⊥ }
    ensures sync_six { IsWellFormed (Sync hash_a peer_six Seed) → ⊥ }
    ensures legal { IsLegalHistory (limited 9 9)
        (entry 0 (Announce hash_a peer_p false true 50) (Told (counts 0 1 1) []) ∷ []) → ⊥ }
{}

/// Each answer of a legal history is right, and not only the last one.
pub fn all_answers_right()
    ensures first { IsLegalHistory (limited 9 9)
        (leech 0 hash_a peer_p (counts 0 0 2) []
        ∷ leech 0 hash_a peer_p (counts 0 0 1) []
        ∷ []) → ⊥ }
    ensures last { IsLegalHistory (limited 9 9)
        (leech 0 hash_a peer_p (counts 0 0 1) []
        ∷ leech 0 hash_a peer_p (counts 0 0 2) []
        ∷ []) → ⊥ }
{}

/// P announces as a seed and then as a leecher: it counts as what it said last. It isn't told
/// itself.
pub fn seed_turns_leecher()
    ensures { IsLegalHistory (limited 9 9) (
        seed 0 hash_a peer_p (counts 1 0 0) []
        ∷ leech 0 hash_a peer_p (counts 0 0 1) []
        ∷ []) }
{}

/// A peer is live until the minute 44 after its announce, and gone from the minute 45 on, whether
/// or not a cleaning came.
pub fn live_for_45_minutes()
    ensures { IsLegalHistory (limited 9 9) (
        leech 0 hash_a peer_p (counts 0 0 1) []
        ∷ scrape 44 hash_a (counts 0 0 1) true
        ∷ clean 44 1
        ∷ scrape 45 hash_a (counts 0 0 0) true
        ∷ clean 45 0
        ∷ []) }
{}

/// Q's clock steps back: its stamp is the bucket's time, 8, and not its own minute, 7.
pub fn clock_steps_back()
    ensures { IsLegalHistory (limited 9 9) (
        leech 8 hash_a peer_p (counts 0 0 1) []
        ∷ leech 7 hash_a peer_q (counts 0 0 2) (peer_p ∷ [])
        ∷ scrape 52 hash_a (counts 0 0 2) true
        ∷ scrape 53 hash_a (counts 0 0 0) true
        ∷ []) }
{}

/// P completes twice, and is counted once, until it stops and completes again. One that is a live
/// seed completes nothing, and one that was no seed for 45 minutes does.
pub fn completed_once()
    ensures twice { IsLegalHistory (limited 9 9) (
        complete 0 hash_a peer_p (counts 1 1 0) []
        ∷ complete 0 hash_a peer_p (counts 1 1 0) []
        ∷ stop 0 hash_a peer_p (counts 0 1 0)
        ∷ complete 0 hash_a peer_p (counts 1 2 0) []
        ∷ []) }
    ensures seed_before { IsLegalHistory (limited 9 9) (
        seed 0 hash_a peer_p (counts 1 0 0) []
        ∷ complete 44 hash_a peer_p (counts 1 0 0) []
        ∷ complete 89 hash_a peer_p (counts 1 1 0) []
        ∷ []) }
    ensures leecher_before { IsLegalHistory (limited 9 9) (
        leech 0 hash_a peer_p (counts 0 0 1) []
        ∷ complete 0 hash_a peer_p (counts 1 1 0) []
        ∷ complete 0 hash_b peer_p (counts 1 1 0) []
        ∷ []) }
{}

/// A stop of what nothing is known of is answered, and makes nothing known.
pub fn stop_of_nothing()
    ensures { IsLegalHistory (limited 9 9) (
        stop 0 hash_a peer_p (counts 0 0 0)
        ∷ scrape 0 hash_a (counts 0 0 0) false
        ∷ scan 0 []
        ∷ []) }
{}

/// With a limit of 2 peers a third endpoint is refused until one ages out. P's age is 45 minutes
/// then, and Q's 44. An endpoint that is live already isn't refused.
pub fn swarm_of_two()
    ensures refused { IsLegalHistory (limited 2 9) (
        leech 0 hash_a peer_p (counts 0 0 1) []
        ∷ leech 0 hash_a peer_q (counts 0 0 2) (peer_p ∷ [])
        ∷ leech 1 hash_a peer_q (counts 0 0 2) (peer_p ∷ [])
        ∷ swarm_full 1 hash_a peer_r 2
        ∷ leech 45 hash_a peer_r (counts 0 0 2) (peer_q ∷ [])
        ∷ []) }
    ensures synced { IsLegalHistory (limited 1 9) (
        sync 0 hash_a peer_p Seed
        ∷ swarm_full 0 hash_a peer_q 1
        ∷ sync 0 hash_a peer_p Leecher
        ∷ sync 0 hash_a peer_q Stopped
        ∷ stop 0 hash_a peer_q (counts 0 0 1)
        ∷ leech 0 hash_b peer_q (counts 0 0 1) []
        ∷ []) }
    ensures room { IsRightAfter (limited 3 9)
        (leech 0 hash_a peer_p (counts 0 0 1) []
        ∷ leech 0 hash_a peer_q (counts 0 0 2) (peer_p ∷ []) ∷ [])
        (swarm_full 0 hash_a peer_r 3) → ⊥ }
{}

/// With a limit of 1 torrent a second one is refused until the first is forgotten. The refused
/// announce doesn't count as one, and announces of the first aren't refused.
pub fn bucket_of_one()
    ensures { IsLegalHistory (limited 9 1) (
        leech 0 hash_a peer_p (counts 0 0 1) []
        ∷ leech 0 hash_a peer_q (counts 0 0 2) (peer_p ∷ [])
        ∷ bucket_full 1439 hash_b peer_p 1
        ∷ scrape 1439 hash_b (counts 0 0 0) false
        ∷ leech 1440 hash_b peer_p (counts 0 0 1) []
        ∷ bucket_full 1440 hash_a peer_p 1
        ∷ []) }
{}

/// A refused announce moves the time alone: it doesn't touch the torrent, and its endpoint isn't
/// live. So does one that found no memory.
pub fn refused_moves_time()
    ensures full { IsLegalHistory (limited 1 9) (
        leech 0 hash_a peer_p (counts 0 0 1) []
        ∷ swarm_full 44 hash_a peer_q 1
        ∷ scrape 0 hash_a (counts 0 0 1) true
        ∷ scrape 45 hash_a (counts 0 0 0) true
        ∷ scrape 1440 hash_a (counts 0 0 0) false
        ∷ []) }
    ensures time_moved { IsLegalHistory (limited 1 9) (
        leech 0 hash_a peer_p (counts 0 0 1) []
        ∷ no_memory 45 hash_a peer_q
        ∷ scrape 0 hash_a (counts 0 0 0) true
        ∷ leech 0 hash_a peer_q (counts 0 0 1) []
        ∷ []) }
{}

/// An endpoint of each family takes part in one swarm. They count together, also for the limit, and
/// aren't told to each other.
pub fn both_families()
    ensures told { IsRightAfter (limited 9 9)
        (leech 0 hash_a peer_six (counts 0 0 1) []
        ∷ leech 0 hash_a peer_q (counts 0 0 2) [] ∷ [])
        (leech 0 hash_a peer_p (counts 0 0 3) (peer_q ∷ [])) }
    ensures limit { IsRightAfter (limited 2 9)
        (leech 0 hash_a peer_six (counts 0 0 1) []
        ∷ leech 0 hash_a peer_q (counts 0 0 2) [] ∷ [])
        (swarm_full 0 hash_a peer_p 2) }
    ensures all { IsRightAfter (limited 9 9)
        (leech 0 hash_a peer_six (counts 0 0 1) []
        ∷ seed 0 hash_a peer_p (counts 1 0 1) [] ∷ []) (clean 0 2) }
{}

/// A sync counts no download, and makes a live peer: one that came as a seed completes nothing, one
/// that came as a leecher does. A sync that is a stop takes the peer out. Other syncs touch the
/// torrent, and are refused where an announce is.
pub fn synced_peers()
    ensures as_seed { IsLegalHistory (limited 9 9) (
        sync 0 hash_a peer_p Seed
        ∷ complete 1 hash_a peer_p (counts 1 0 0) []
        ∷ []) }
    ensures as_leecher { IsLegalHistory (limited 9 9) (
        sync 0 hash_a peer_p Leecher
        ∷ complete 1 hash_a peer_p (counts 1 1 0) []
        ∷ sync 2 hash_a peer_p Stopped
        ∷ scrape 2 hash_a (counts 0 1 0) true
        ∷ scrape 1441 hash_a (counts 0 0 0) false
        ∷ []) }
    ensures touches { IsLegalHistory (limited 9 9) (
        sync 0 hash_a peer_p Leecher
        ∷ scrape 1439 hash_a (counts 0 0 0) true
        ∷ sync 1439 hash_a peer_p Seed
        ∷ scrape 2878 hash_a (counts 0 0 0) true
        ∷ scrape 2879 hash_a (counts 0 0 0) false
        ∷ []) }
    ensures refused { IsLegalHistory (limited 1 1) (
        leech 0 hash_a peer_p (counts 0 0 1) []
        ∷ entry 0 (Sync hash_a peer_q Seed) (SwarmFull 1)
        ∷ entry 0 (Sync hash_a peer_q Leecher) (SwarmFull 1)
        ∷ entry 0 (Sync hash_b peer_p Seed) (BucketFull 1)
        ∷ entry 0 (Sync hash_b peer_p Leecher) (BucketFull 1)
        ∷ sync 0 hash_b peer_p Stopped
        ∷ scrape 0 hash_a (counts 0 0 1) true
        ∷ []) }
{}

/// A torrent's downloads are kept while it is known, and lost when it is forgotten, also if another
/// torrent's call moved the time. A stop and a scrape don't touch it.
pub fn downloads_across_forgetting()
    ensures kept { IsLegalHistory (limited 9 9) (
        complete 0 hash_a peer_p (counts 1 1 0) []
        ∷ leech 1439 hash_a peer_q (counts 0 1 1) []
        ∷ scrape 2878 hash_a (counts 0 1 0) true
        ∷ complete 2878 hash_a peer_p (counts 1 2 0) []
        ∷ []) }
    ensures lost { IsLegalHistory (limited 9 9) (
        complete 0 hash_a peer_p (counts 1 1 0) []
        ∷ stop 10 hash_a peer_p (counts 0 1 0)
        ∷ scrape 20 hash_a (counts 0 1 0) true
        ∷ leech 1440 hash_b peer_p (counts 0 0 1) []
        ∷ leech 1440 hash_a peer_q (counts 0 0 1) []
        ∷ complete 1440 hash_a peer_p (counts 1 1 1) (peer_q ∷ [])
        ∷ []) }
{}

/// A scan has each known torrent once, ascending by hash, and a cleaning counts each live peer of
/// each torrent.
pub fn all_torrents()
    ensures { IsLegalHistory (limited 9 9) (
        leech 0 hash_b peer_p (counts 0 0 1) []
        ∷ complete 1 hash_a peer_p (counts 1 1 0) []
        ∷ leech 1 hash_b peer_q (counts 0 0 2) (peer_p ∷ [])
        ∷ leech 2 hash_b peer_p (counts 0 0 2) (peer_q ∷ [])
        ∷ scan 45 (row hash_a (counts 1 1 0) ∷ row hash_b (counts 0 0 2) ∷ [])
        ∷ clean 45 3
        ∷ clean 46 1
        ∷ scan 1441 (row hash_b (counts 0 0 0) ∷ [])
        ∷ []) }
{}

/// An announce is told as many peers as it wants, each once, or all that there are, and never its
/// own endpoint. A stop is told none.
pub fn fair_peers()
    ensures one { IsLegalHistory (limited 9 9) (
        leech 0 hash_a peer_p (counts 0 0 1) []
        ∷ leech 0 hash_a peer_q (counts 0 0 2) (peer_p ∷ [])
        ∷ entry 0 (Announce hash_a peer_r true false 1) (Told (counts 1 0 2) (peer_q ∷ []))
        ∷ entry 0 (Announce hash_a peer_r true false 1) (Told (counts 1 0 2) (peer_p ∷ []))
        ∷ entry 0 (Announce hash_a peer_r true false 0) (Told (counts 1 0 2) [])
        ∷ entry 0 (Announce hash_a peer_r true false 2) (Told (counts 1 0 2) (peer_q ∷ peer_p ∷ []))
        ∷ []) }
    ensures stopped { IsRightAfter (limited 9 9)
        (leech 0 hash_a peer_p (counts 0 0 1) [] ∷ [])
        (entry 0 (Stop hash_a peer_q) (Told (counts 0 0 1) (peer_p ∷ []))) → ⊥ }
    ensures twice { IsRightAfter (limited 9 9)
        (leech 0 hash_a peer_p (counts 0 0 1) []
        ∷ leech 0 hash_a peer_q (counts 0 0 2) (peer_p ∷ []) ∷ [])
        (leech 0 hash_a peer_r (counts 0 0 3) (peer_p ∷ peer_p ∷ [])) → ⊥ }
    ensures itself { IsRightAfter (limited 9 9)
        (leech 0 hash_a peer_p (counts 0 0 1) []
        ∷ leech 0 hash_a peer_q (counts 0 0 2) (peer_p ∷ []) ∷ [])
        (leech 0 hash_a peer_r (counts 0 0 3) (peer_p ∷ peer_r ∷ [])) → ⊥ }
    ensures fewer { IsRightAfter (limited 9 9)
        (leech 0 hash_a peer_p (counts 0 0 1) []
        ∷ leech 0 hash_a peer_q (counts 0 0 2) (peer_p ∷ []) ∷ [])
        (leech 0 hash_a peer_r (counts 0 0 3) (peer_p ∷ [])) → ⊥ }
{}

/// Want of memory may answer an announce of an endpoint that isn't live, and where sync is on any
/// announce and a stop. It never answers a scrape, a cleaning or a drain, nor a sync of a live
/// endpoint or of one that stops.
pub fn free_answers()
    ensures fresh { IsRightAfter (limited 9 9) [] (no_memory 0 hash_a peer_p) }
    ensures scanned { IsRightAfter (limited 9 9) [] (entry 0 Scan NoMemory) }
    ensures renewed { IsRightAfter (limited 9 9)
        (leech 0 hash_a peer_p (counts 0 0 1) [] ∷ []) (no_memory 0 hash_a peer_p) → ⊥ }
    ensures noted { IsRightAfter (synced 9 9)
        (leech 0 hash_a peer_p (counts 0 0 1) [] ∷ []) (no_memory 0 hash_a peer_p) }
    ensures stopped { IsRightAfter (limited 9 9) [] (entry 0 (Stop hash_a peer_p) NoMemory) → ⊥ }
    ensures stopped_and_noted { IsRightAfter (synced 9 9) []
        (entry 0 (Stop hash_a peer_p) NoMemory) }
    ensures scraped { IsRightAfter (synced 9 9) [] (entry 0 (Scrape hash_a) NoMemory) → ⊥ }
    ensures cleaned { IsRightAfter (synced 9 9) [] (entry 0 Clean NoMemory) → ⊥ }
    ensures came { IsRightAfter (synced 9 9) [] (entry 0 (Sync hash_a peer_p Seed) NoMemory) }
    ensures came_as_leecher { IsRightAfter (synced 9 9) []
        (entry 0 (Sync hash_a peer_p Leecher) NoMemory) }
    ensures drained { IsRightAfter (synced 9 9) [] (entry 0 Drain NoMemory) → ⊥ }
    ensures came_again { IsRightAfter (synced 9 9)
        (leech 0 hash_a peer_p (counts 0 0 1) [] ∷ [])
        (entry 0 (Sync hash_a peer_p Seed) NoMemory) → ⊥ }
    ensures went { IsRightAfter (synced 9 9) []
        (entry 0 (Sync hash_a peer_p Stopped) NoMemory) → ⊥ }
{}

/// The kinds of answers: an announce is told no more peers than it wants, and of its family, a stop
/// none. Something is full by its limit. Want of memory answers neither a scrape nor, where no
/// notes are kept, a stop, and a sync that is a stop is only applied.
pub fn kinds_of_answers()
    ensures told { IsKindOf (limited 2 9) (Announce hash_a peer_r false false 1)
        (Told (counts 0 0 2) (peer_p ∷ [])) }
    ensures too_many { IsKindOf (limited 2 9) (Announce hash_a peer_r false false 1)
        (Told (counts 0 0 3) (peer_p ∷ peer_q ∷ [])) → ⊥ }
    ensures other_family { IsKindOf (limited 2 9) (Announce hash_a peer_r false false 1)
        (Told (counts 0 0 2) (peer_six ∷ [])) → ⊥ }
    ensures full { IsKindOf (limited 2 9) (Announce hash_a peer_r false false 1) (SwarmFull 2) }
    ensures other_limit { IsKindOf (limited 2 9) (Announce hash_a peer_r false false 1)
        (BucketFull 2) → ⊥ }
    ensures stopped { IsKindOf (limited 2 9) (Stop hash_a peer_r)
        (Told (counts 0 0 2) (peer_p ∷ [])) → ⊥ }
    ensures unnoted { IsKindOf (limited 2 9) (Stop hash_a peer_r) NoMemory → ⊥ }
    ensures noted { IsKindOf (synced 2 9) (Stop hash_a peer_r) NoMemory }
    ensures scraped { IsKindOf (synced 2 9) (Scrape hash_a) NoMemory → ⊥ }
    ensures synced_seed { IsKindOf (synced 2 9) (Sync hash_a peer_r Seed) (BucketFull 9) }
    ensures synced_stop { IsKindOf (synced 2 9) (Sync hash_a peer_r Stopped) (BucketFull 9) → ⊥ }
{}

/// A drain takes out one note for each announce and stop that took effect, in order, also for a
/// stop of nobody. Syncs and refused calls make none, and where sync is off there is none.
pub fn notes_of_calls()
    ensures on { IsLegalHistory (synced 1 9) (
        seed 0 hash_a peer_p (counts 1 0 0) []
        ∷ swarm_full 0 hash_a peer_q 1
        ∷ no_memory 0 hash_b peer_q
        ∷ leech 0 hash_a peer_p (counts 0 0 1) []
        ∷ stop 0 hash_b peer_q (counts 0 0 0)
        ∷ sync 0 hash_b peer_q Seed
        ∷ drain 0
        (note hash_a peer_p Seed ∷ note hash_a peer_p Leecher ∷ note hash_b peer_q Stopped ∷ []) 0
        ∷ stop 0 hash_a peer_p (counts 0 0 0)
        ∷ drain 0 (note hash_a peer_p Stopped ∷ []) 0
        ∷ drain 0 [] 0
        ∷ []) }
    ensures off { IsLegalHistory (limited 9 9) (
        seed 0 hash_a peer_p (counts 1 0 0) []
        ∷ drain 0 [] 0
        ∷ []) }
{}

/// A bucket that has P in A as a seed since minute 3 stands for the history of P's announce, and
/// the empty bucket for none. By the step between them the one follows from the other.
pub fn bucket_after_announce()
    ensures before { StandsFor [] empty_bucket }
    ensures step { StepsTo (seed 3 hash_a peer_p (counts 1 0 0) []) empty_bucket seeded_bucket }
    ensures after { StandsFor (seed 3 hash_a peer_p (counts 1 0 0) [] ∷ []) seeded_bucket }
{}

/// A peer stands in the list of its family. What is stored but no longer live or known says
/// nothing: a bucket at minute 1440 that still stores A, with a peer of each family since minute 0,
/// stands for a history that knows nothing of A.
pub fn bucket_with_stale_peers()
    ensures in_its_list { IsTidy stale_torrent }
    ensures in_the_other { IsTidy (record stale_torrent {
      fours = stale_torrent.sixes;
      sixes = stale_torrent.fours;
    }) → ⊥ }
    ensures stands { StandsFor (scrape 1440 hash_a (counts 0 0 0) false ∷ []) stale_bucket }
{}

/// Three calls of one caller in two buckets: each goes to the end of its bucket's history. Among
/// other callers one of theirs may come before it. Neither the order of two calls nor the caller is
/// free, and none of the caller's own calls is left out.
pub fn calls_in_two_buckets()
    ensures alone { GrowsAlone (limited 9 9) 0 ([] ∷ [] ∷ [])
        (on 0 (leech 0 hash_a peer_p (counts 0 0 1) [])
        ∷ on 1 (leech 0 hash_b peer_q (counts 0 0 1) [])
        ∷ on 0 (scrape 1 hash_a (counts 0 0 1) true)
        ∷ [])
        ((leech 0 hash_a peer_p (counts 0 0 1) [] ∷ scrape 1 hash_a (counts 0 0 1) true ∷ [])
        ∷ (leech 0 hash_b peer_q (counts 0 0 1) [] ∷ [])
        ∷ []) }
    ensures among { GrowsAmong (limited 9 9) 0
        ((leech 0 hash_a peer_p (counts 0 0 1) [] ∷ []) ∷ [])
        (on 0 (scrape 1 hash_a (counts 0 0 2) true) ∷ [])
        ((leech 0 hash_a peer_p (counts 0 0 1) []
        ∷ record (leech 0 hash_a peer_q (counts 0 0 2) (peer_p ∷ [])) { caller = 1 }
        ∷ scrape 1 hash_a (counts 0 0 2) true
        ∷ []) ∷ []) }
    ensures other_order { GrowsAlone (limited 9 9) 0 ([] ∷ [])
        (on 0 (scrape 0 hash_a (counts 0 0 0) false)
        ∷ on 0 (leech 0 hash_a peer_p (counts 0 0 1) [])
        ∷ [])
        ((leech 0 hash_a peer_p (counts 0 0 1) []
        ∷ scrape 0 hash_a (counts 0 0 0) false
        ∷ []) ∷ []) → ⊥ }
    ensures other_caller { GrowsAlone (limited 9 9) 1 ([] ∷ [])
        (on 0 (scrape 0 hash_a (counts 0 0 0) false) ∷ [])
        ((scrape 0 hash_a (counts 0 0 0) false ∷ []) ∷ []) → ⊥ }
    ensures own_left_out { GrowsAmong (limited 9 9) 0 ([] ∷ [])
        (on 0 (scrape 0 hash_a (counts 0 0 1) true) ∷ [])
        ((leech 0 hash_a peer_p (counts 0 0 1) []
        ∷ scrape 0 hash_a (counts 0 0 1) true
        ∷ []) ∷ []) → ⊥ }
{}
