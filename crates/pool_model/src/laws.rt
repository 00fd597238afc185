// Laws of disks that stand for a pool.
ghost use Rattle.pool_model.specs.Laws.{BeginsKeep, BootedAreUp, BootedKnow, BootsStand, DownsKnow, EmptyStands, FlatListsAreRead};
ghost use Rattle.pool_model.specs.Laws.{GuestsHoldAlone, GuestsKeepImages, GuestsWriteAlone, ImageFrame};
ghost use Rattle.pool_model.specs.Laws.{MadePoolsStand, MakingStands, NobodySettles, NobodyTears, OnePool, OthersKnow, OthersKnowLists, PoolsAreMade, QuietDowns, RawBasesMean, TasksGo};
ghost use Rattle.pool_model.specs.Laws.{ReadingAgrees, RoleFrame, SettledFoldersMean, StandingIsCovered, StandingKeeps};

/// A law: a disk that holds nothing stands for the pool that isn't made yet, whichever hosts are up.
pub fn empty_disks_stand()
    ensures { EmptyStands }
{}

/// A law: a disk that stands for a pool has no stray folder or file, and no unsynced write but of hosts that are up,
/// in the files of an image but of those that hold it.
pub fn standing_disks_are_kept()
    ensures covered { StandingIsCovered }
    ensures keeps { StandingKeeps }
{}

/// A law: where a disk stands for a pool and no host is up, nothing on it is unsynced, and no write is mixed into an
/// image.
pub fn nothing_is_unsynced_without_hosts()
    ensures settled { NobodySettles }
    ensures untorn { NobodyTears }
{}

/// A law: a disk that stands for a pool still does once more hosts are up.
pub fn booting_leaves_disks_standing()
    ensures { BootsStand }
{}

/// A law: with no host up, two pools that one disk stands for are one, but for what has happened, flat lists of ILLEGAL
/// volumes and past capacities, and images that an open task makes or removes.
pub fn disks_stand_for_one_pool()
    ensures { OnePool }
{}

/// A law: where a disk stands for a pool, the flat list of each LEGAL volume of an image is what each outcome's files
/// read as through their chain, sector by sector, unless a write is mixed in, the image can't be opened, or an open
/// task makes or removes it.
pub fn flat_lists_are_read_through_chains()
    ensures { FlatListsAreRead }
{}

/// A law: a disk with one domain, whose text reads as a master's that lists itself, with leases and boxes of zeros and
/// nothing of images and tasks, stands for the pool that was just made.
pub fn made_pools_stand()
    ensures { MadePoolsStand }
{}

/// A law: where no pool is there and one host makes a domain, the disk stands for that pool as long as the domain has no
/// text; and once its text is there beside its other files, it stands for the pool that was made.
pub fn pools_are_made_by_one_text()
    ensures before { MakingStands }
    ensures made { PoolsAreMade }
{}

/// A law: a folder in which nothing is unsynced means an image where its files do as they stand; and so do the files
/// of a new raw volume: its text, and its file of zeros.
pub fn made_images_are_meant()
    ensures settled { SettledFoldersMean }
    ensures raw { RawBasesMean }
{}

/// A law: where an image's files mean the pool's image, their reading volume is the image's.
pub fn one_volume_is_read()
    ensures { ReadingAgrees }
{}

/// A law: a step that leaves an image's folders, its sector, its tasks and what the pool says of it alone, and leaves it
/// to the hosts that are up and hold it, leaves what the disk has to say of the image.
pub fn images_stand_alone()
    ensures { ImageFrame }
{}

/// A law: where sector 0 of the master becomes another lease by one exchange, for no task, the disk stands for the pool
/// with that lease, as long as whoever is up and holds an image still does.
pub fn roles_move_alone()
    ensures { RoleFrame }
{}

/// A law: a step of a host, all of whose changes of images are owned, leaves an image of which another host is the
/// guest as it was, but for a file that the manager made longer.
pub fn guests_keep_their_images()
    ensures { GuestsKeepImages }
{}

/// A law: whoever holds an image that has a guest is the guest, and no other host has anything unsynced in the files of
/// its volumes and their texts.
pub fn guests_are_alone()
    ensures holds { GuestsHoldAlone }
    ensures writes { GuestsWriteAlone }
{}

/// A law: in each pool there is what a verb keeps of the moment of its begin, so that one can begin.
pub fn begins_keep_what_there_is()
    ensures { BeginsKeep }
{}

/// A law: a host whose boot is answered ok is up, where the list of hosts has its number.
pub fn booted_hosts_are_up()
    ensures { BootedAreUp }
{}

/// A law: what a host that is up knows stays true where another host changes only what it may, and where another one goes
/// down, as long as the two don't make a pool at once.
pub fn knowledge_survives_others()
    ensures owned { OthersKnow }
    ensures lists { OthersKnowLists }
    ensures down { DownsKnow }
{}

/// A law: a host that isn't up, and boots, knows what a booted host has to know: no write of its former life is mixed into
/// an image.
pub fn booted_hosts_know()
    ensures { BootedKnow }
{}

/// A law: where a host goes down that has no write under way, the disk stands for the pool that it stood for.
pub fn quiet_hosts_go_down()
    ensures { QuietDowns }
{}

/// A law: where no task is open and the file of one is removed, the disk stands for the pool without it.
pub fn tasks_go_by_their_files()
    ensures { TasksGo }
{}
