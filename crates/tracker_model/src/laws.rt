//! Laws of the definitions: each function's contract is the law, and its body is empty. Histories
//! have the newest entry first here, unless a law says otherwise.

ghost use Rattle.std.specs.Prelude.{◌≡◌, ◌+◌, ◌^◌, ◌<◌, ◌≤◌, ◌∷◌, ◌++◌, [], ℕ, Bool, List, Option, true, false, if◌then◌else◌, length, map, slice_set};
ghost use Rattle.ot_base.specs.declared.hash.InfoHash.{InfoHash};
ghost use Rattle.ot_base.specs.declared.address.Endpoint.{Endpoint};
ghost use Rattle.ot_base.specs.declared.peer.Held.{Held};
ghost use Rattle.tracker_model.specs.Calls.{IsWellFormed};
ghost use Rattle.std.specs.List.{AllByRecursion, sum_by};
ghost use Rattle.std.specs.List.Sorted.{IsStrictlySortedBy};
ghost use Rattle.std.specs.Set.{is_member};
ghost use Rattle.ot_base.specs.Order.{hash_cmp};
ghost use Rattle.ot_base.specs.Same.{same_hash};
ghost use Rattle.ot_base.specs.declared.peer.Row.{Row};
ghost use Rattle.tracker_model.specs.Counted.{how_many, counts_of, swarm_size, is_leecher, known_count, live_count, rows_of};
ghost use Rattle.tracker_model.specs.Entries.{time_of, is_effective, last_word};
ghost use Rattle.tracker_model.specs.Grows.{Move, GrowsAlone, GrowsAmong, history_at, entries_in, entries_by};
ghost use Rattle.tracker_model.specs.Judged.{IsRightFor};
ghost use Rattle.tracker_model.specs.Kinds.{IsKindOf};
ghost use Rattle.tracker_model.specs.Known.{Standing, if_known, known, is_known, is_seed, touch_of, downloads, downloaded_of, counts_download};
ghost use Rattle.tracker_model.specs.Legal.{IsLegalHistory, IsRightAfter};
ghost use Rattle.tracker_model.specs.Live.{if_live, live};
ghost use Rattle.tracker_model.specs.Outbox.{is_drain, notes_since, outbox_notes, outbox_dropped};
ghost use Rattle.tracker_model.specs.Right.{IsRightAfterPast};
ghost use Rattle.tracker_model.specs.Reports.{IsReported};
ghost use Rattle.tracker_model.specs.Settings.{Settings};
ghost use Rattle.tracker_model.specs.Shape.{Shape, Torrent, count_in, counts_in, known_in, known_torrents, live_peers};
ghost use Rattle.tracker_model.specs.Stands.{Keeps, StandsFor};
ghost use Rattle.tracker_model.specs.Steps.{SameAt, TorrentStep, StepsTo};
ghost use Rattle.tracker_model.specs.declared.entry.Entry.{Entry};
ghost use Rattle.tracker_model.specs.declared.call.Call.{Call};
ghost use Rattle.tracker_model.specs.declared.call.Call.TheVariants.{Announce, Stop};

/// Time never falls, and each entry moves it at least to its own minute, whatever it was answered.
pub fn time_never_falls()
    ensures rises { (x : Entry) (past : List Entry) → time_of past ≤ time_of (x ∷ past) }
    ensures follows { (x : Entry) (past : List Entry) → x.minute.0 ≤ time_of (x ∷ past) }
{}

/// An entry that took no effect leaves the live peers, the known torrents with their downloads, and
/// the outbox.
pub fn refused_moves_time_alone()
    ensures peers { (x : Entry) (past : List Entry) → is_effective x ≡ false →
        (h : InfoHash) (e : Endpoint) (minute : ℕ) →
        live (x ∷ past) h e minute ≡ live past h e minute }
    ensures torrents { (x : Entry) (past : List Entry) → is_effective x ≡ false →
        (h : InfoHash) (minute : ℕ) →
        time_of (x ∷ past) ≤ minute → known (x ∷ past) h minute ≡ known past h minute }
    ensures notes { (g : Settings) (x : Entry) (past : List Entry) → is_effective x ≡ false →
        is_drain x.call ≡ false →
        outbox_notes g (x ∷ past) ≡ outbox_notes g past }
    ensures dropped { (g : Settings) (x : Entry) (past : List Entry) → is_effective x ≡ false →
        is_drain x.call ≡ false →
        outbox_dropped g (x ∷ past) ≡ outbox_dropped g past }
{}

/// An endpoint that stopped isn't live, and one that announced is, with its flag, as of now.
pub fn stopped_or_announced()
    ensures stopped { (x : Entry) (past : List Entry) (h : InfoHash) (e : Endpoint) (minute : ℕ) →
        is_effective x ≡ true → x.call ≡ Stop h e → live (x ∷ past) h e minute ≡ None }
    ensures announced { (x : Entry) (past : List Entry) (h : InfoHash) (e : Endpoint)
        (seed completed : Bool) (want : ℕ) →
        is_effective x ≡ true → x.call ≡ Announce h e seed completed want →
        live (x ∷ past) h e (time_of (x ∷ past)) ≡
        Some (record { who = e; seed = seed; stamp = record { 0 = time_of (x ∷ past) } }) }
{}

/// What is live comes from an effective entry that said so, and no newer one says anything of its
/// endpoint.
pub fn live_is_reported()
    ensures { (past : List Entry) (h : InfoHash) (e : Endpoint) (minute : ℕ) (held : Held) →
        live past h e minute ≡ Some held → IsReported past h e held }
{}

/// A torrent's live seeds and its other live peers are all its live peers.
pub fn seeds_and_leechers()
    ensures { (past : List Entry) (h : InfoHash) (minute : ℕ) →
        how_many is_seed past h minute + how_many is_leecher past h minute ≡
        swarm_size past h minute }
{}

/// What is live at a minute was live at every earlier one since its stamp, and from the age of 45
/// minutes on nothing is.
pub fn live_for_a_while()
    ensures earlier { (past : List Entry) (h : InfoHash) (e : Endpoint) (earlier later : ℕ)
        (held : Held) → earlier ≤ later →
        live past h e later ≡ Some held → live past h e earlier ≡ Some held }
    ensures gone { (past : List Entry) (h : InfoHash) (e : Endpoint) (minute : ℕ) (held : Held) →
        last_word past h e ≡ Some held → held.stamp.0 + 45 ≤ minute → live past h e minute ≡ None }
{}

/// A torrent that wasn't touched for 1,440 minutes isn't known, and its downloads count from 0. One
/// with a live peer is known.
pub fn known_for_a_day()
    ensures forgotten { (past : List Entry) (h : InfoHash) (minute touch : ℕ) →
        touch_of past h ≡ Some touch → touch + 1440 ≤ minute → is_known past h minute ≡ false }
    ensures anew { (x : Entry) (past : List Entry) (h : InfoHash) →
        is_known past h (time_of (x ∷ past)) ≡ false →
        downloads (x ∷ past) h ≡ (if counts_download x h past then 1 else 0) }
    ensures lively { (past : List Entry) (h : InfoHash) (e : Endpoint) (minute : ℕ) (held : Held) →
        live past h e minute ≡ Some held → is_known past h minute ≡ true }
{}

/// Downloads are told exactly up to 4,294,967,295, and from there on that number is told.
pub fn downloads_as_told()
    ensures exact { (past : List Entry) (h : InfoHash) → downloads past h < 2 ^ 32 →
        downloaded_of past h ≡ downloads past h }
    ensures stopped { (past : List Entry) (h : InfoHash) → 2 ^ 32 ≤ downloads past h →
        downloaded_of past h ≡ 4294967295 }
{}

/// Of a torrent that isn't known all three counts are 0.
pub fn unknown_counts_nothing()
    ensures { (past : List Entry) (h : InfoHash) → is_known past h (time_of past) ≡ false →
        counts_of past h ≡ record { complete = 0; downloaded = 0; incomplete = 0 } }
{}

/// A completed announce of a live seed adds no download.
pub fn seed_adds_no_download()
    ensures { (x : Entry) (past : List Entry) (h : InfoHash) (e : Endpoint)
        (seed completed : Bool) (want : ℕ) (held : Held) →
        is_effective x ≡ true → x.call ≡ Announce h e seed completed want →
        live past h e (time_of (x ∷ past)) ≡ Some held → held.seed ≡ true →
        downloads (x ∷ past) h ≡ downloads past h }
{}

/// What two sides agree on now they agree on later: what is live, and what is known.
pub fn agree_now_and_later()
    ensures peers { (now later : ℕ) → now ≤ later → (a b : Option Held) →
        if_live now a ≡ if_live now b → if_live later a ≡ if_live later b }
    ensures torrents { (now later : ℕ) → now ≤ later → (a b : Option Standing) →
        if_known now a ≡ if_known now b → if_known later a ≡ if_known later b }
{}

/// A prefix of a legal history is legal. Here the oldest entry stands first.
pub fn prefix_is_legal()
    ensures { (g : Settings) (history more : List Entry) → IsLegalHistory g (history ++ more) →
        IsLegalHistory g history }
{}

/// The outbox is empty after a drain, and always where sync is off.
pub fn empty_outbox()
    ensures drained { (g : Settings) (x : Entry) (past : List Entry) → is_drain x.call ≡ true →
        outbox_notes g (x ∷ past) ≡ [] }
    ensures none_dropped { (g : Settings) (x : Entry) (past : List Entry) →
        is_drain x.call ≡ true → outbox_dropped g (x ∷ past) ≡ 0 }
    ensures off { (g : Settings) (past : List Entry) → g.sync ≡ false → outbox_notes g past ≡ [] }
    ensures off_drops_none { (g : Settings) (past : List Entry) → g.sync ≡ false →
        outbox_dropped g past ≡ 0 }
{}

/// Where sync is on the outbox keeps all notes since the last drain while they are at most 4,096,
/// keeps never more, and counts the further ones as dropped.
pub fn room_for_notes()
    ensures all { (g : Settings) (past : List Entry) → g.sync ≡ true →
        length (notes_since past) ≤ 4096 →
        (outbox_notes g past ≡ notes_since past) × (outbox_dropped g past ≡ 0) }
    ensures no_more { (g : Settings) (past : List Entry) → length (outbox_notes g past) ≤ 4096 }
    ensures others { (g : Settings) (past : List Entry) (further : ℕ) → g.sync ≡ true →
        further < 2 ^ 32 →
        length (notes_since past) ≡ 4096 + further → outbox_dropped g past ≡ further }
{}

/// What is no longer live or known may go before a step is made.
pub fn passing_then_step()
    ensures { (took : Bool) (call : Call) (minute : ℕ) (old middle new : List Torrent) →
        SameAt minute old middle →
        TorrentStep took call minute middle new → TorrentStep took call minute old new }
{}

/// An empty bucket stands for no entries. A bucket that stands for a history, is called as may be,
/// answers right and makes the entry's step stands for the history with the entry. That its answer
/// is right may be judged by the history, or by what it has stored before and after. Here the
/// oldest entry stands first.
pub fn stands_on()
    ensures first { (g : Settings) →
        StandsFor [] (record { settings = g; time = 0; torrents = []; notes = []; dropped = 0 }) }
    ensures next { (history : List Entry) (x : Entry) (old new : Shape) → StandsFor history old →
        IsWellFormed x.call → IsRightAfter old.settings history x → StepsTo x old new →
        StandsFor (history ++ x ∷ []) new }
    ensures judged { (history : List Entry) (x : Entry) (old new : Shape) → StandsFor history old →
        IsWellFormed x.call → IsRightFor old new x.call x.answer → StepsTo x old new →
        StandsFor (history ++ x ∷ []) new }
{}

/// What is stored, counted, is what the entries say, counted from scratch: how many endpoints pass
/// a test that nothing passes, a torrent's counts, the known torrents, and the live peers of all
/// torrents.
pub fn stored_counts()
    ensures peers { (past : List Entry) (minute : ℕ) (stored : List Torrent) (h : InfoHash)
        (test : Option Held → Bool) →
        test None ≡ false → Keeps past minute stored →
        how_many test past h minute ≡ count_in test minute stored h }
    ensures counts { (past : List Entry) (stored : List Torrent) (h : InfoHash) →
        Keeps past (time_of past) stored →
        counts_of past h ≡ counts_in (time_of past) stored h }
    ensures torrents { (past : List Entry) (minute : ℕ) (stored : List Torrent) →
        Keeps past minute stored →
        known_count past minute ≡ length (known_torrents minute stored) }
    ensures all_peers { (past : List Entry) (stored : List Torrent) →
        Keeps past (time_of past) stored →
        live_count past ≡ sum_by (λ torrent. length (live_peers (time_of past) torrent)) stored }
{}

/// Rows that strictly ascend by hash, of the torrents that are known, each with its counts, are the
/// rows of a scan.
pub fn ascending_rows()
    ensures { (past : List Entry) (rows : List Row) →
        IsStrictlySortedBy hash_cmp (map (λ row. row.hash) rows) →
        ((h : InfoHash) → is_member same_hash (map (λ row. row.hash) rows) h ≡
        is_known past h (time_of past)) →
        AllByRecursion (λ row. row.counts ≡ counts_of past row.hash) rows → rows ≡ rows_of past }
{}

/// A right answer is of the kind that its call gets.
pub fn right_is_of_kind()
    ensures { (g : Settings) (past : List Entry) (x : Entry) →
        IsRightAfterPast g past x → IsKindOf g x.call x.answer }
{}

/// Calls in order, of a caller that is alone: those that it made after others are one list with
/// them, and one call is a list. Each history is afterwards what it was and then the bucket's
/// calls; if all histories were legal, all are; and the number of buckets stays. Here the oldest
/// entry stands first.
pub fn calls_of_one_caller()
    ensures once { (g : Settings) (caller : ℕ) (old : List (List Entry)) (move : Move) →
        move.entry.caller ≡ caller → move.bucket < length old →
        IsLegalHistory g (history_at old move.bucket ++ move.entry ∷ []) →
        GrowsAlone g caller old (move ∷ []) (slice_set old move.bucket
        (history_at old move.bucket ++ move.entry ∷ [])) }
    ensures appended { (g : Settings) (caller : ℕ) (old middle new : List (List Entry))
        (moves more : List Move) → GrowsAlone g caller old moves middle →
        GrowsAlone g caller middle more new → GrowsAlone g caller old (moves ++ more) new }
    ensures grown { (g : Settings) (caller : ℕ) (old new : List (List Entry)) (moves : List Move) →
        GrowsAlone g caller old moves new → (bucket : ℕ) →
        history_at new bucket ≡ history_at old bucket ++ entries_in bucket moves }
    ensures legal { (g : Settings) (caller : ℕ) (old new : List (List Entry)) (moves : List Move) →
        GrowsAlone g caller old moves new →
        ((bucket : ℕ) → IsLegalHistory g (history_at old bucket)) →
        (bucket : ℕ) → IsLegalHistory g (history_at new bucket) }
    ensures as_many { (g : Settings) (caller : ℕ) (old new : List (List Entry))
        (moves : List Move) → GrowsAlone g caller old moves new → length new ≡ length old }
{}

/// The same of one caller among several: a history begins with what it was, and of the caller's own
/// entries it has afterwards what it had and then the bucket's calls.
pub fn calls_among_others()
    ensures appended { (g : Settings) (caller : ℕ) (old middle new : List (List Entry))
        (moves more : List Move) → GrowsAmong g caller old moves middle →
        GrowsAmong g caller middle more new → GrowsAmong g caller old (moves ++ more) new }
    ensures grown { (g : Settings) (caller : ℕ) (old new : List (List Entry)) (moves : List Move) →
        GrowsAmong g caller old moves new → (bucket : ℕ) → (more : List Entry) ×
        (history_at new bucket ≡ history_at old bucket ++ more) }
    ensures own { (g : Settings) (caller : ℕ) (old new : List (List Entry)) (moves : List Move) →
        GrowsAmong g caller old moves new → (bucket : ℕ) →
        entries_by caller (history_at new bucket) ≡
        entries_by caller (history_at old bucket) ++ entries_in bucket moves }
    ensures legal { (g : Settings) (caller : ℕ) (old new : List (List Entry)) (moves : List Move) →
        GrowsAmong g caller old moves new →
        ((bucket : ℕ) → IsLegalHistory g (history_at old bucket)) →
        (bucket : ℕ) → IsLegalHistory g (history_at new bucket) }
    ensures as_many { (g : Settings) (caller : ℕ) (old new : List (List Entry))
        (moves : List Move) → GrowsAmong g caller old moves new → length new ≡ length old }
{}

/// Two bodies that stand for the same history answer a scrape alike: they have the same counts of
/// each torrent, and know the same of it.
pub fn bodies_agree()
    ensures counts { (history : List Entry) (a b : Shape) → StandsFor history a →
        StandsFor history b →
        (h : InfoHash) → counts_in a.time a.torrents h ≡ counts_in b.time b.torrents h }
    ensures torrents { (history : List Entry) (a b : Shape) → StandsFor history a →
        StandsFor history b →
        (h : InfoHash) → known_in a.time a.torrents h ≡ known_in b.time b.torrents h }
{}
