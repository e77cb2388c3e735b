// The laws of statuses: what each says by itself of a run that ends so.

ghost use Rattle.std.specs.Prelude.{◌⊎◌, ℕ, List};
ghost use Rattle.tw_base.specs.kinds.Faults.{Rose};
ghost use Rattle.tw_base.specs.history.History.{History};
ghost use Rattle.tw_diskcmd.specs.Disks.{IsLeft, ReadsAsHistory};
ghost use Rattle.tw_text.specs.Faults.{IsRefused};
ghost use Rattle.tw_text.specs.Lines.{no_memory_text};
ghost use Rattle.tw_text.specs.declared.fault.CommandFault.{CommandFault};
ghost use Rattle.tw_text.specs.declared.fault.CommandFault.TheVariants.{Unreadable, Unserved};
ghost use Rattle.tw_text.specs.declared.refusal.BadInput.{BadInput};
ghost use Rattle.tw_text.specs.declared.refusal.StoreCause.{StoreCause};
ghost use Rattle.tw_follow.specs.HeadLists.{Kept};
ghost use Rattle.tw_diskcmd.specs.FollowerDisks.{ReadsAsHeads};
ghost use Rattle.tw_app.specs.Around.{Around, Writes};
ghost use Rattle.tw_app.specs.Commands.{IsOfFollower};
ghost use Rattle.tw_app.specs.Running.{EndsAllowed};
ghost use Rattle.tw_app.specs.Statuses.{AreWordsOf, DiskFailed, IsAnsweredRun, IsDiskFaultRun, IsDoneRun, IsGapRun, IsInputFaultRun, IsRejectedRun, IsUndoneRun, IsUsageRun, IsWork};

use tw_disk::Disk;

/// What each status says of a run that ends so, by what its command does.
pub fn status_laws<D: Disk>()
    // Status 0: the words are of a command that is done, its text was written whole, and the disk is left as is right for that.
    // Status 0 of `show`: the history file is there and is that of a sound history. The bytes written are the proof
    // that this history has of that event, with its last step as the top, and are accepted under any anchors of which
    // that of the history's name and last step has the history's authenticator.
    // Status 0 of `join`: each file is there and holds a proof, and the bytes written spell the proof from event to event
    // that these join to.
    // Status 0 of `prove event`: what the disk read as opens as a service's store. Step, top and its last step are in their
    // order, and the bytes written are the proof of the event of that index that is found in its pages, whatever these
    // keep. And where the disk read as a history, with writes pending or not, they are the proof that this history has of
    // that event under that top, or under its last step, and a step of the machine; and the disk stands for it, at rest.
    // They are accepted under any anchors of which that of the history's name and top has the history's authenticator.
    // Status 0 of `prove link`: the same of the proof of the step's authenticator; the step may be 0.
    // Status 0 of `prove thread`: the same of the proof that a step up to that one received a thread of the peer's step.
    // Status 0 of `prove absent`: the same of the proof that none did.
    // Status 0 of `map low`: what the disk read as opens as a service's store. Step, top and its last step are in their
    // order, and the bytes written are the low file that is found in its pages, whatever these keep. And where the disk
    // read as a history, with writes pending or not, they spell the low file that this history has of that step and peer
    // under that top, and a step of the machine; and the disk stands for it, at rest.
    // Status 0 of `map high`: the same of the high file of that top for that step of the peer; the top alone is in question.
    // Status 0 of `export`: what the disk read as opens as a service's store, and the bytes written are the history file that is
    // found in its pages, whatever these keep. And where the disk read as a history, with writes pending or not, they are this
    // history's own file, which is read as the same history again, and a step of the machine; and the disk stands for it, at rest.
    // Status 0 of `thread`: what the disk read as opens as a service's store, which has a step, and whose last one isn't
    // below the step that is named. The bytes written are the message of the last step that is found in its pages,
    // whatever these keep. And where the disk read as a history, with writes pending or not, they spell the message that
    // this history has of its last step since that step, and are a step of the machine; its link climbs from the
    // history's authenticator of that step to that of the last one; and the disk stands for the history, at rest: so no
    // loss of power takes what was told.
    // Status 0 of `init`: no store was there. The line written is that of step 0 of the history of that name without
    // steps. The disk, where its content was told, stands for that history, at rest.
    // Status 0 of `append`: the events file is there, within its limit, and spells events that the table doesn't
    // refuse. What the disk read as opens as a service's store, and the line written is that of its next step with these
    // events and the time of the words, if any, as it is found in its pages, whatever these keep. And where the disk read
    // as a history, with writes pending or not, adding these is a step of the machine, the line is that of the longer
    // history's last step, and the disk stands for the longer history, at rest. Whatever the pages keep, the disk opens with
    // the record of that step and the pages that are found with it behind the others, at rest.
    // Status 0 of `receive`: the file is there and holds a message. What the disk read as opens as a service's store, of another
    // name than the message's, and the bytes written are the receipt of the message's thread: by the step that its archive's
    // pages tell to have received it, with the authenticator that its page tells; or by its next step, as it is found behind
    // pages of a tree that has the thread besides what the archive had. And where the disk read as a history, with writes
    // pending or not, it is the machine's reply by the receiving of that message, at the time of the words, if any: the receipt
    // of the step that received the thread, and the disk stands for the history, at rest; or that of the last step of the
    // history with one more, which received it and with which it is sound, and the disk stands for that, at rest. Whatever the
    // pages keep, the disk opens with the record and pages that were there, or with those of the step that archives the thread, at
    // rest.
    // Status 0 of `watch`: no store was there. The line written is that of step 0 of the name. The disk, where its content
    // was told, stands for the list of that name without heads, at rest.
    // Status 0 of `offer`: the file is there and holds a message. What the disk read as opens as a follower's store, over
    // whose head the table says that the message is the head itself or moves it, and the line written is that of the
    // message's thread. And where the disk read as a list of heads, with writes pending or not, the disk stands for that
    // list, or, where the message moves the head, for it with that thread, at rest. Whatever the store's pages keep, the disk
    // opens with the record and pages that were there, or, where the message moves the record's head, with those of that thread,
    // whose page stands behind the others, at rest.
    // Status 0 of `heads`: what the disk read as opens as a follower's store, and the lines written are those of the heads
    // that are found in its pages, oldest first. And where the disk read as a list of heads, with writes pending or not,
    // they are that list's, and the disk stands for it, at rest. Whatever the pages keep, the lines are of heads of one service
    // whose steps rise, and the disk rests with the record and pages that were there.
    // Status 0 of `replay`: the file is there and is a script, and the bytes written are the text of what it is played to: what its lines
    // are told, one after another, by the rules of worlds, from a world of nothing on, in which no service claims a time; and the summary
    // of this and of the numbers of steps at the end. Status 0 of `generate`: the line written is the summary
    // of the three histories to which the words' number leads in so many rounds.
    // Status 0 of `accuse`: all files are there and hold the proofs of two received threads and, where one is named, a link.
    // The bytes written spell the evidence that these make, and are accepted, with that fork, under all anchors under
    // which it shows one. Status 0 of `checkfork`: the file is there, the anchors file is there and has no bad line, and the
    // lines written are those of the fork that the file's bytes show under these anchors. Status 0 of `audit`: the lines
    // written are those of the report that stands. Status 0 of `atlas`: all files are there and hold receipts, and the lines
    // written are those of the atlas of their hops from the step that is named. Status 0 of `checkmap`: all files are there
    // and hold a low and a high map file; the anchors file has no bad line; both are accepted under its anchors, and the lines
    // written are those of the bounds that they show. Status 0 of `adopt`: all files are there, the anchors file has no bad line,
    // the history file is that of a sound history, and the bytes written are the file of what is taken over of it by the
    // proofs.
    ensures done { (a : Around D) → EndsAllowed D.view a 0 → IsDoneRun D.view a }

    // Status 1: the words are `verify` or `strict`, the proof file is there, its bytes spell no proof that is
    // accepted under the command's anchors, or, of `strict`, one that carries threads, and the line written names
    // the lowest reason that stands against them. Or the words are `join`, each file is there and holds a proof,
    // and the line written has the number of the first that doesn't fit, or one more than there are, where the last
    // is missing. Or the words are of another command that comes to an answer of this status, whose text was
    // written whole.
    ensures rejected { (a : Around D) → EndsAllowed D.view a 1 → IsRejectedRun a ⊎ IsGapRun a ⊎ IsAnsweredRun D.view a 1 }
    // Status 2: the words have no form, and the number written is that of the first word at which none goes on.
    ensures usage { (a : Around D) → EndsAllowed D.view a 2 → IsUsageRun D.view a }
    // Status 3: the words are of a command and name a file, the inputs' count of faults rose, and `fault input` was
    // written whole.
    ensures input_fault { (a : Around D) → EndsAllowed D.view a 3 → IsInputFaultRun D.view a }
    // Status 4: the sink's count of faults rose.
    ensures output_fault { (a : Around D) → EndsAllowed D.view a 4 → Rose a.sink_faults.before a.sink_faults.after }
    // Status 4, where the disk's count of faults didn't rise: the words are of a command that is done, and the disk
    // is left as is right for that; or nothing was written to it.
    ensures cut_short { (a : Around D) → EndsAllowed D.view a 4 → (DiskFailed D.view a → ⊥)
        → ((text : List ℕ) × IsWork D.view a (λ w. w.done text)) ⊎ IsLeft D.view a.outside.disk.before a.outside.disk.after }
    // Status 5: the words are of a command with a folder, the disk's count of faults rose, and `fault disk` was
    // written whole. At `append`, `receive` and `offer` the file was judged before, and what is opened as no store
    // of the command's kind is left as it was; the disk opens with the record and pages that were there, or with
    // the next ones, of those events or of that message, whatever the pages keep.
    ensures disk_fault { (a : Around D) → EndsAllowed D.view a 5 → IsDiskFaultRun D.view a }
    // Status 6: `no memory` was written whole.
    ensures no_memory { (a : Around D) → EndsAllowed D.view a 6 → Writes a no_memory_text }
    // Status 7: the words are of a command that is refused for this reason, its line was written whole, and the
    // disk is left as is right for that.
    ensures refused { (a : Around D) → EndsAllowed D.view a 7 → (fault : CommandFault) × IsRefused fault × IsUndoneRun D.view a fault }
    // Status 8: the words are of a command that isn't done for this cause, which lies in the store, its line was
    // written whole, and the disk is left as is right for that.
    ensures store { (a : Around D) → EndsAllowed D.view a 8 → (cause : StoreCause) × IsUndoneRun D.view a (Unserved cause) }
    // Status 8 never comes where the disk read as a history, of another command than `watch`, `offer` and `heads`.
    ensures complete { (a : Around D) → EndsAllowed D.view a 8 → (AreWordsOf IsOfFollower a.words → ⊥) → (h : History) → ReadsAsHistory (D.view a.outside.disk.before).content h → ⊥ }
    // Status 8 of these three never comes where the disk read as a list of heads.
    ensures list_complete { (a : Around D) → EndsAllowed D.view a 8 → AreWordsOf IsOfFollower a.words → (k : Kept) → ReadsAsHeads (D.view a.outside.disk.before).content k → ⊥ }
    // Status 9: the words are of a command that isn't done, since a file that it names isn't what it reads, the
    // line that tells the place was written whole, and the disk is left as is right for that.
    ensures unreadable { (a : Around D) → EndsAllowed D.view a 9 → (bad : BadInput) × IsUndoneRun D.view a (Unreadable bad) }
    // Status 10: the words are of a command that comes to an answer of this status, and its text was written whole.
    // (That the command is `audit` alone, `clash` of `run` says.)
    ensures clash { (a : Around D) → EndsAllowed D.view a 10 → IsAnsweredRun D.view a 10 }
{}
