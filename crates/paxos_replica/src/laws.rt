ghost use Rattle.paxos_replica.specs.Laws.{CampaignsPassedOver, MessagesPassedOver, OffersPassedOver};

/// An event for which a call answers `None` is one at which a replica's step changes nothing and says nothing.
pub fn passed_over()
    ensures messages { MessagesPassedOver }
    ensures campaigns { CampaignsPassedOver }
    ensures offers { OffersPassedOver }
{}
