//! The headline in the words of its users: laws of every step and of every run, each the contract of
//! a function that does nothing.
#![tactic(auto)]

ghost use Rattle.laws.specs.Laws.{RunsAreLegal, RunsAreHonest, NoStrangers, ErrorsAreFailures, EachFailureIsAnswered, TransfersAreInHand, NothingIsLeft, CurrentCountsPages, EventsAreThoseCounted, CountsAreOfTheHistory, ChargesStayWithinMax, OnlyAccessesCharge, KillsComeLast, VictimsHaveTheMostPages, GroupKillsAreWhole, SingleKillsAreUnflagged, KillsAreCounted, ReadsGiveLastWrites, HonestDevicesPassTheAudit, AuditedReadsGaveLastWrites, PagesShareNoFrame, PagesShareNoBlock, BlocksAreThere, PagesShareNoTicket, FilePagesStayAtHome, FilePagesAreOne, OnlyCleanPagesAreDropped, StatAddsUpToCurrent, MappingsShowPages, MemoryWithoutAMappingIsGone, SharedBytesAgree, ForksShare, MovesTakeNoCharge, RemovalsKeepAncestorsCounts, RemovedGroupsHaveNoPages, RootIsNeverFlagged, OnlySetsChangeSettings, TraceHasRoom, TransfersAreBegunLessEnded, TransfersStayCharged, RepliesAreSettled, OrdersAreSettled, WriteOutsStayCharged, ReclaimsSpareTheProtected, SharesStayWithin, LowsComeLast, LowsAreCounted, LowsKillNobody, ReclaimsGiveUpLast, ReclaimsKillNobody, HeldPagesAreListed, GenerationsHold, GroupsHaveCursors, HeldPagesGoOn, OnlyTakesAge, HitsMark, OnlyHitsMark, FiveReadsMark, OnlyMergesMark, MergesChangeMarksAlone, MergesAreServed, PagesLeaveInOrder, IdleIsLeftAlone, SharesAreEven, MarkedPagesStay, GroupsAreThere};

/// The history of every run is legal: it leads from the opening to the run's state, and each entry is one step of the
/// plain machine. Therefore what holds of each step, and of each legal history, holds of every run.
pub fn runs_are_legal()
    ensures { RunsAreLegal }
{}

/// Each page that was read in during a run brought what was last written, or what the device had for a file
/// before the run. The device has the blocks of a configuration within the limits, and keeps its promise.
pub fn runs_are_honest()
    ensures { RunsAreHonest }
{}

/// No command of a run is refused because its ticket is not its own.
pub fn no_strangers()
    ensures { NoStrangers }
{}

/// The number of answers `EIO` of a run is at most the number of failed calls of the device. A device without faults
/// therefore gives none.
pub fn errors_are_failures()
    ensures { ErrorsAreFailures }
{}

/// The number of answers `EIO` of a run, with those that commands under way still owe, is exactly the number of failed
/// calls of the device. This excludes a failure that is never answered, and one that is answered twice.
pub fn each_failure_is_answered()
    ensures { EachFailureIsAnswered }
{}

/// After any run the number of pages in transfer is the number of commands under way with a ticket in hand.
pub fn transfers_are_in_hand()
    ensures { TransfersAreInHand }
{}

/// After a run in which each command was answered, no page is in transfer, whatever failed. The frames in use
/// are those of resident pages, and the swap blocks in use are those of pages that are swapped out.
pub fn nothing_is_left()
    ensures { NothingIsLeft }
{}

/// A page in transfer, in either direction, is charged to its group and to each group above it. (Unfolds
/// `is_charged`.)
pub fn transfers_stay_charged()
    ensures { TransfersStayCharged }
{}

/// An event that begins a write-out leaves the count of every group as it was.
pub fn write_outs_stay_charged()
    ensures { WriteOutsStayCharged }
{}

/// The number that `memory.current` shows is the number of pages with frames in the group and below it. (Unfolds
/// `shown_of`.)
pub fn current_counts_pages()
    ensures { CurrentCountsPages }
{}

/// For each of the six keys, `memory.events` shows how often it was counted at the group or below it.
/// `memory.events.local` shows how often it was counted at the group itself. (Unfolds `shown_of`.)
pub fn event_files_show_what_was_counted()
    ensures { EventsAreThoseCounted }
{}

/// Each count is the number of the events that the history counted, and of nothing else. These events can be listed
/// entry by entry: a charge that a group's max refused, a page reclaimed from a group within its low, a kill, a relief
/// without a victim. By every such list, each key was counted at each group once for each of its places in the list.
pub fn counts_are_of_the_history()
    ensures { CountsAreOfTheHistory }
{}

/// An access that raises the number of pages charged to a group leaves it at most at the group's max. This holds for
/// every group, and therefore for each above the task's. A max that was lowered below the count may stay exceeded, but
/// admits no charge.
pub fn charges_stay_within_max()
    ensures { ChargesStayWithinMax }
{}

/// In a state that a legal history leads to, only an access raises the number of pages charged to a group. Therefore,
/// by `charges_stay_within_max`, a count that rises stays within the max, whatever the event.
pub fn only_accesses_charge()
    ensures { OnlyAccessesCharge }
{}

/// A relief kills only if nothing under its limit group can be reclaimed and nothing there is in transfer.
/// The task that it kills is a live one of a group at or below that group. So is each task that dies with it,
/// in a state that a legal history leads to.
pub fn kills_come_last()
    ensures { KillsComeLast }
{}

/// The victim of a relief, alone or with its group, is a live task of a group at or below the limit group. No
/// other such task maps more pages, and none that maps the same number has a lower task number. (Unfolds
/// `IsVictim`.)
pub fn victims_have_the_most_pages()
    ensures { VictimsHaveTheMostPages }
{}

/// In a state that a legal history leads to: if a group is killed as one, all live tasks in it and below it die. They
/// map nothing afterwards. The victim is one of them, and the answer has their number. No other task changes, nor what
/// it maps. The group is at or below the limit group and has the flag `memory.oom.group`. No group between the two has
/// it, nor has the limit group, unless that is the group.
pub fn group_kills_are_whole()
    ensures { GroupKillsAreWhole }
{}

/// In such a state a task is killed alone only if no group from its own up to the limit group, both included, has the
/// flag. No other task changes. This excludes a group with the flag whose tasks are killed one by one.
pub fn single_kills_are_unflagged()
    ensures { SingleKillsAreUnflagged }
{}

/// In such a state a kill counts `oom` once at the limit group, and `oom_kill` once for each task that dies,
/// at the task's group. By Linux's placement a group's kill counts the victim twice. A kill counts `oom_group_kill` once at the group that is killed as one, if one is. No
/// other number changes.
pub fn kills_are_counted()
    ensures { KillsAreCounted }
{}

/// A page that is reclaimed was resident. Its group is the reclaim's target, or is below it and uses more
/// than its effective `memory.min` for that target. No other page changes. (Unfolds `Takes`.)
pub fn reclaims_spare_the_protected()
    ensures { ReclaimsSpareTheProtected }
{}

/// A page of a group below the target that uses no more than its effective `memory.low` is reclaimed only if each page
/// that can be reclaimed is of such a group. This excludes that it is reclaimed while another page is left that no low
/// protects, of another group or of the target itself. (Unfolds `is_next`.)
pub fn lows_come_last()
    ensures { LowsComeLast }
{}

/// If a page of a group within its effective `memory.low` is reclaimed, `low` is counted once at that group, and
/// nothing else is. If another page is reclaimed, nothing is counted. No other event counts `low`. This excludes a
/// count at the target, and one for each group that is passed over.
pub fn lows_are_counted()
    ensures { LowsAreCounted }
{}

/// If a relief kills a task or a group, nothing under its limit group could be reclaimed with any other lows either,
/// and nothing there is in transfer. This excludes a kill for a page that a low protects.
pub fn lows_kill_nobody()
    ensures { LowsKillNobody }
{}

/// In a state that a legal history leads to, let the effective min, or low, of a group below a reclaim's target be a
/// number of pages. Then the effective min, or low, of each live child is a number of pages too. Together these are no
/// more than the group's, with recursive protection and without. This excludes shares that are rounded up, and children
/// that get their full claim if that is more than there is.
pub fn shares_stay_within()
    ensures { SharesStayWithin }
{}

/// A reclaim by `memory.reclaim` or by the daemon finds nothing only if nothing under its target can be
/// reclaimed and nothing there is in transfer. It changes nothing then. (Unfolds `ReclaimStep`.)
pub fn reclaims_give_up_last()
    ensures { ReclaimsGiveUpLast }
{}

/// A reclaim by `memory.reclaim` or by the daemon is never answered by a kill, and changes no task. (Unfolds
/// `ReclaimStep`.)
pub fn reclaims_kill_nobody()
    ensures { ReclaimsKillNobody }
{}

/// After any run each resident page that is in no transfer is once on the lists of its group and type. No
/// other page is on a list, and no other page is marked.
pub fn held_pages_are_listed()
    ensures { HeldPagesAreListed }
{}

/// After any run each group has its own lists. For each type these are two to four generations by rising number, and
/// each page is in one of them. There is a mark for each number that a page may have.
pub fn generations_hold()
    ensures { GenerationsHold }
{}

/// After any run there is a cursor for each group, so the cursor of each target can move.
pub fn groups_have_cursors()
    ensures { GroupsHaveCursors }
{}

/// A call that changes anything and reclaims no page leaves the lists as follows. A page that is no longer resident
/// leaves its list, and all others keep their places. At most one page becomes resident. It enters the generation of
/// the placement if it was read in, and the youngest otherwise, and is not marked. A merge of marks moves no page, and
/// a new group's lists are empty. The pages of a removed group are on its parent's lists, after those of the second
/// youngest generation, the oldest first, and marked as they were. (Unfolds `Orders`.)
pub fn held_pages_go_on()
    ensures { HeldPagesGoOn }
{}

/// In a call that reclaims no page, no generation of any group begins or ends.
pub fn only_takes_age()
    ensures { OnlyTakesAge }
{}

/// After any run, a turn whose access is answered by a hit leaves that page marked. With `--as-linux` this holds of a
/// page of a file from its fifth access on; the access for which the page was read in is the first.
pub fn hits_mark()
    ensures { HitsMark }
{}

/// No other turn marks a page: none that makes, copies or reads in a page, and none that reclaims one.
/// [`held_pages_go_on`] says that no page begins with an old mark of its number.
pub fn only_hits_mark()
    ensures { OnlyHitsMark }
{}

/// After any run with `--as-linux`, an access that finds a page of a file without a mark counts one more. The fifth
/// marks the page, and the count begins again with the next one that finds it without a mark. The access for which the
/// page was read in counts once, with the read-in.
pub fn five_reads_mark()
    ensures { FiveReadsMark }
{}

/// No call of a book but a merge marks pages, and a merge marks only those held in the frames of its bits. So
/// no access marks a page by itself, and no bit marks the page that had its frame before.
pub fn only_merges_mark()
    ensures { OnlyMergesMark }
{}

/// A merge changes no page, no list, no cursor and no history, and clears no mark. (Unfolds `MergesMarks`.)
pub fn merges_change_marks_alone()
    ensures { MergesChangeMarksAlone }
{}

/// After every run a merge is answered `Ok`, whatever pass asks for it, and marks the pages held in the
/// frames of its bits. So neither a full trace nor lack of memory refuses it.
pub fn merges_are_served()
    ensures { MergesAreServed }
{}

/// After any run, a page that a call reclaims is of the group whose turn it is for that target. By Linux's placement,
/// groups with an old page of a file that isn't marked have their turn before all others, for a charge, for a frame and
/// for the root. It is the page of that group that is evicted next. The lists are those that the search left, without
/// the page. The target's cursor then names the group, and says how many more pages it gives in its turn. No other
/// cursor moves.
pub fn pages_leave_in_order()
    ensures { PagesLeaveInOrder }
{}

/// After any run, by Linux's placement: where a page is taken for a charge, for a frame, or for the root, and some
/// group that may give has an old page of a file that isn't marked, then the page's group has one too. This excludes
/// idle memory that is taken from a group without such a page while another group has one.
pub fn idle_is_left_alone()
    ensures { IdleIsLeftAlone }
{}

/// After any run, and while no group is made or removed: take a group at or below the target that is asked for each page.
/// Between two turns of any other group, it has a turn. If each turn is one page, as at a limit, the other group therefore
/// gives at most one page more. A group is asked if it has a page to give. If groups with an old page of a file come
/// first, it is asked only if it has one.
pub fn shares_are_even()
    ensures { SharesAreEven }
{}

/// After any run, a marked page is reclaimed only if each page of its group that can be reclaimed is marked, or in one
/// of the group's two youngest generations.
pub fn marked_pages_stay()
    ensures { MarkedPagesStay }
{}

/// Each read in a right history gave the byte last written before it, or what the byte was at first. What a
/// child has not written is what its parent had there at the fork. What was freed is 0. What any task wrote
/// to a file, all tasks read. (Unfolds `Right`.)
pub fn reads_give_last_writes()
    ensures { ReadsGiveLastWrites }
{}

/// An audit finds nothing wrong in the trace of a run over a device that has the blocks and keeps its
/// promise.
pub fn honest_devices_pass_the_audit()
    ensures { HonestDevicesPassTheAudit }
{}

/// If an audit finds nothing wrong, each read of the trace gave the byte last written, whatever the device
/// did. A byte of a file that no task wrote is what its page's first arrival brought. (Unfolds `Passes`.)
pub fn audited_reads_gave_last_writes()
    ensures { AuditedReadsGaveLastWrites }
{}

/// In a state that a legal history leads to, no two pages have one frame.
pub fn pages_share_no_frame()
    ensures { PagesShareNoFrame }
{}

/// In a state that a legal history leads to, no two pages have one block of the device.
pub fn pages_share_no_block()
    ensures { PagesShareNoBlock }
{}

/// In a state that a legal history leads to, each block of a page is one that the configuration asks of the
/// device.
pub fn blocks_are_there()
    ensures { BlocksAreThere }
{}

/// In a state that a legal history leads to, no two pages are in transfer under one ticket.
pub fn pages_share_no_ticket()
    ensures { PagesShareNoTicket }
{}

/// In a state that a legal history leads to, each page of a file is one that the file has. It is in its
/// frame, or in transfer between that and its own home block. One that is being written out is dirty. Memory
/// is never dirty.
pub fn file_pages_stay_at_home()
    ensures { FilePagesStayAtHome }
{}

/// In a state that a legal history leads to, no two pages hold the same page of a file.
pub fn file_pages_are_one()
    ensures { FilePagesAreOne }
{}

/// A page that a step drops is of a file, and was not written to since its home block had its bytes. (Unfolds
/// `LeavesBy`.)
pub fn only_clean_pages_are_dropped()
    ensures { OnlyCleanPagesAreDropped }
{}

/// The two numbers of `memory.stat` add up to `memory.current`.
pub fn stat_adds_up_to_current()
    ensures { StatAddsUpToCurrent }
{}

/// In a state that a legal history leads to, each virtual page that maps a page maps one that exists, and
/// that is memory.
pub fn mappings_show_pages()
    ensures { MappingsShowPages }
{}

/// In a state that a legal history leads to, each page of memory that is in no transfer is mapped by a virtual page of
/// a live task. Therefore it ceases to exist with its last mapping, or at the end of its transfer.
pub fn memory_without_a_mapping_is_gone()
    ensures { MemoryWithoutAMappingIsGone }
{}

/// In a state that a legal history leads to, two virtual pages that map one page have the same last write at each
/// offset. This excludes a shared page that is written in place, with the write in only one of them.
pub fn shared_bytes_agree()
    ensures { SharedBytesAgree }
{}

/// After a fork the child is alive in its parent's group, maps what its parent maps, and has its parent's
/// bytes. What every other task maps, each page, and the count of each group are as they were. (Unfolds
/// `Forks`.)
pub fn forks_share()
    ensures { ForksShare }
{}

/// After a move the task is in the new group. Each page and the count of each group are as they were.
/// (Unfolds `Attaches`.)
pub fn moves_take_no_charge()
    ensures { MovesTakeNoCharge }
{}

/// In a state that a legal history leads to, the removal of a group leaves the count of every other group as it was,
/// and therefore of each above it. Each number of `memory.events` stays, at each group, and at and below it.
pub fn removals_keep_ancestors_counts()
    ensures { RemovalsKeepAncestorsCounts }
{}

/// In a state that a legal history leads to, a group that does not exist has no page: none in a frame, in transfer or
/// on its block. Nothing is charged to it. Therefore all pages of a group leave it when it is removed.
pub fn removed_groups_have_no_pages()
    ensures { RemovedGroupsHaveNoPages }
{}

/// In a state that a legal history leads to, the entries and the pages in transfer are together no more than the
/// trace's limit. Therefore each transfer has room for the entry of its end.
pub fn trace_has_room()
    ensures { TraceHasRoom }
{}

/// In a state that a legal history leads to, the number of pages in transfer is the number of entries that began a
/// transfer, less those that ended one.
pub fn transfers_are_begun_less_ended()
    ensures { TransfersAreBegunLessEnded }
{}

/// In a state that a legal history leads to, the group of each page and of each live task exists.
pub fn groups_are_there()
    ensures { GroupsAreThere }
{}

/// In a state that a legal history leads to, the root's `memory.oom.group` is not set. Therefore the root is never
/// killed as one.
pub fn root_is_never_flagged()
    ensures { RootIsNeverFlagged }
{}

/// A group has each max, min, low and flag after a step that it had before, unless the step is the `Set` of that
/// setting at that group. Therefore no kill, move, removal or other setting changes one, and a removed group's number
/// keeps its own. In a state that a legal history leads to, a new group begins with no max, no protection and no flag.
/// A `Set` that nothing refuses leaves the group with what it sets.
pub fn only_sets_change_settings()
    ensures { OnlySetsChangeSettings }
{}

/// Two answers to one event of one caller from one past, neither for lack of memory, differ at most in the numbers of
/// new tickets and in the byte of a read. That byte is the one last written. Therefore the definitions leave no other
/// answer open.
pub fn replies_are_settled()
    ensures { RepliesAreSettled }
{}

/// Two calls of one caller from one past that answer one event alike and leave one state leave the same lists, marks
/// and cursors. Therefore, with the state, nothing of the order is left open.
pub fn orders_are_settled()
    ensures { OrdersAreSettled }
{}
