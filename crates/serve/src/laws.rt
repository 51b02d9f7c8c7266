//! Laws of what is done: each function's contract is the law, and its body is empty.

ghost use Rattle.std.specs.Prelude.{◌≡◌, List, Option, Some, ℕ};
ghost use Rattle.ot_base.specs.Address.{family_of};
ghost use Rattle.ot_base.specs.declared.address.Family.TheVariants.{Four};
ghost use Rattle.ot_io.specs.Counts.{Rose};
ghost use Rattle.ot_io.specs.Tales.{Tale};
ghost use Rattle.ot_io.specs.Traffic.{Datagram, Traffic};
ghost use Rattle.serve.specs.Completeness.{BeginsWithHead, IsRepliedTo, TakesUp, WaitsFirst};
ghost use Rattle.serve.specs.Connection as connection;
ghost use Rattle.serve.specs.Connection.{AreFaultsCounted, ConnectionTerms};
ghost use Rattle.serve.specs.Datagram.{FaultsAreCounted, Serves, Terms};
ghost use Rattle.serve.specs.declared.connection.ConnEnd.{ConnEnd};
ghost use Rattle.serve.specs.declared.datagram.Served.{Served};
ghost use Rattle.shards.specs.Shape.{PassShape};

/// Where a datagram from an IPv4 address waits at a wire that tells it, and the outside doesn't
/// fail, it is taken up.
pub fn datagrams_are_taken_up()
    ensures { (terms : Terms) (old new : PassShape) (wire : Traffic) (wire' : Option Traffic)
        (came : Datagram) (faults faults' : ℕ) (served : Served) →
        Serves terms old new (Some wire) wire' served →
        FaultsAreCounted faults faults' served →
        (Rose faults faults' → ⊥) →
        WaitsFirst wire came →
        family_of came.peer.addr ≡ Four →
        TakesUp terms old new came (Some wire) wire' served }
{}

/// Where a connection from an IPv4 address, which tells its bytes, sends the head of a request, and
/// the outside doesn't fail, that is replied to.
pub fn connections_are_replied_to()
    ensures { (terms : ConnectionTerms) (old new : PassShape) (link link' : Tale)
        (bytes : List ℕ) (ended : ConnEnd) →
        connection.Serves terms old new link link' ended →
        AreFaultsCounted link.faults link'.faults ended →
        (Rose link.faults link'.faults → ⊥) →
        link.left ≡ Some bytes →
        BeginsWithHead bytes →
        family_of link.client.addr ≡ Four →
        IsRepliedTo terms old new link link' ended }
{}
