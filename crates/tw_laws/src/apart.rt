// The law that tells the stores of services and of followers apart.

ghost use Rattle.std.specs.Prelude.{ℕ, List};
ghost use Rattle.sha2.specs.Sha256.{sha256};
ghost use Rattle.tw_answers.specs.declared.root.RootRecord.{RootRecord as ServiceRoot};
ghost use Rattle.tw_base.specs.history.History.{History};
ghost use Rattle.tw_disk.specs.Image.{Image};
ghost use Rattle.tw_follow.specs.HeadLists.{Kept};
ghost use Rattle.tw_follow.specs.Stands.{IsNotOpenedFor as IsNoFollower, IsServed as IsServedList, StandsFor as StandsForList};
ghost use Rattle.tw_follow.specs.declared.root.RootRecord.{RootRecord as FollowerRoot};
ghost use Rattle.tw_pages.specs.declared.open.StoreFault.{StoreFault};
ghost use Rattle.tw_service.specs.Stands.{IsNotOpenedFor as IsNoService, IsServed, StandsFor};
ghost use Rattle.tw_pages.specs.Records.Served.{Opened};
ghost use Rattle.tw_pages.specs.Records.{written_record};

/// What opens as a service's store is opened as no follower, and what opens as a follower's as no service, whatever the pages keep.
pub fn apart_laws()
    // An image that opens as a service's store with a record and pages is opened as no follower, for a reason that is told.
    ensures service { (image : Image) (root : ServiceRoot) (pages : Image) → IsServed image (Opened (written_record root pages))
        → (why : StoreFault) × IsNoFollower sha256 image why }
    // One that opens as a follower's is opened as no service.
    ensures follower { (image : Image) (root : FollowerRoot) (pages : Image) → IsServedList sha256 image (Opened (written_record root pages))
        → (why : StoreFault) × IsNoService image why }
    // So one that stands for a history is opened as no follower.
    ensures history { (image : Image) (name : List ℕ) (h : History) → StandsFor sha256 image name h
        → (why : StoreFault) × IsNoFollower sha256 image why }
    // And one that stands for a list of heads is opened as no service.
    ensures list { (image : Image) (k : Kept) → StandsForList sha256 image k → (why : StoreFault) × IsNoService image why }
{}
