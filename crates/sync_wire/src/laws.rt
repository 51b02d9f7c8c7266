//! Laws of the datagrams: each function's contract is the law, and its body is empty.

ghost use Rattle.std.specs.Prelude.{◌≡◌, ◌≤◌, ◌+◌, ◌*◌, ℕ, All, List, [], ◌∷◌, Ok};
ghost use Rattle.std.specs.Prelude.{length, take, drop};
ghost use Rattle.ot_base.specs.declared.peer.Note.{Note};
ghost use Rattle.sync_wire.specs.Batches.{Batch, IsFromAnother, batch_len_of, batch_bytes};
ghost use Rattle.sync_wire.specs.Batches.{datagrams_of};
ghost use Rattle.sync_wire.specs.Notes.{IsHeld};
ghost use Rattle.sync_wire.specs.Reading.{batch_of};

/// What a node sends for some notes is the datagram of the next batch, and then what it sends for
/// the notes behind that. For no notes it sends nothing.
pub fn datagrams_one_by_one()
    ensures none { (node : ℕ) → datagrams_of node [] ≡ [] }
    ensures next { (node : ℕ) (notes : List Note) → 1 ≤ length notes →
        let len = batch_len_of notes in
        datagrams_of node notes
        ≡ batch_bytes node (take len notes) ∷ datagrams_of node (drop len notes) }
{}

/// What a node wrote is read by another node as the same notes of that sender.
pub fn batch_is_read_again()
    ensures again { (own : ℕ) (batch : Batch) → IsFromAnother own batch →
        batch_of own (batch_bytes batch.node batch.notes) ≡ Ok batch }
    ensures len { (node : ℕ) (notes : List Note) → All IsHeld notes →
        length (batch_bytes node notes) ≡ 8 + 28 * length notes }
{}
