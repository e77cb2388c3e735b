// The law of runs of the program, and of services between them, on one disk.

ghost use Rattle.tw_base.specs.history.History.{History};
ghost use Rattle.tw_pages.specs.Runs.{HoldsOnly};
ghost use Rattle.tw_laws.specs.Acknowledged.{AppendsRise, KeepsAcknowledged};
ghost use Rattle.tw_laws.specs.Turns.{AreTurnsFrom, AreTurnsOf, HasOne, StartsAs, last_disk};

use tw_base::Sha;
use tw_disk::Disk;
use tw_service::Service;

/// No second authenticator, of the program: over every list of its runs on one disk, and of services that are
/// opened between them, with crashes at any moment, one thread of each step is published at most, and it is one of
/// each history that the disk may stand for at the end. The list begins on a disk that stands for a history
/// for good, or with a run of `init` that is done. Each run of `run` is such a run, as `run_once` says: `work` of
/// `tw_app`, and then `tell`. One of a command without a folder publishes nothing of a disk. The service handed in only names the types.
pub fn published_laws<D: Disk>(service: &Service<D, Sha>)
    // Over every list of runs of the program on one disk, of services between them, and of
    // crashes at any moment, that begins on a disk that stands for a history for good, or with a run of `init` that has made
    // the service: any two threads of one step are equal, of those of that first history and of those published. These are
    // the one whose line `init` or `append` writes, the one by which `receive` gives its receipt, that of the message of `thread`, those
    // of its own history that stand in a proof of `prove` or in a file of `map`, each of the history that `export` writes,
    // be it written whole or in part; and what a service tells. Of a run that is stopped in its work nothing is out, since
    // that half of it has no sink. At the end
    // the disk tells what it reads as; that, and each image that a crash may then leave, stands for a history of that name
    // which has all of them.
    ensures runs { (disk : D) (first : History) (moves : _) → AreTurnsOf service.now moves → StartsAs D.view first disk moves →
        AreTurnsFrom D.view disk moves → HasOne D.view first disk moves }
    // Over every such list: each step whose line `append` came to, be it written whole, in part or not at all, or a service between the runs
    // answered, is above those of the lines before it. And what the disk reads as at the end, and each image that a crash may then leave,
    // stands for a history of that name which begins with the steps of the first one, and has, at each such line's step, the events of the
    // file, or those that the service was given, and the time that was asked for, and at the step of each receipt that `receive` came to, or
    // that the service answered, the thread of the message.
    ensures steps { (disk : D) (first : History) (moves : _) → AreTurnsOf service.now moves → StartsAs D.view first disk moves →
        AreTurnsFrom D.view disk moves → AppendsRise moves × HoldsOnly D.view (KeepsAcknowledged first moves) (last_disk disk moves) }
{}
