use super::*;

const SD: Id = Id([0, 0, 0, 0, 0, 0, 0x40, 0, 0x80, 0, 0, 0, 0, 0, 0, 2]);

const LOW: Id = Id([
    0x9f, 0xff, 0xff, 0xff, 0xff, 0xff, 0x4f, 0xff, 0xbf, 0xff, 0xff, 0xff, 0xff, 0xff, 0xff, 0xff,
]);

const HIGH: Id = Id([0xa0, 0, 0, 0, 0, 0, 0x40, 0, 0x80, 0, 0, 0, 0, 0, 0, 0]);

// A folder to be removed stands between the images whose first digit is 0 to 9 and those with a to f.
#[test]
fn folders_in_order(rt: HostRuntime) {
    let dirs = [
        (Dir::Root, ""),
        (Dir::Domain(SD), "00000000-0000-4000-8000-000000000002"),
        (
            Dir::DomMd(SD),
            "00000000-0000-4000-8000-000000000002/dom_md",
        ),
        (
            Dir::Images(SD),
            "00000000-0000-4000-8000-000000000002/images",
        ),
        (
            Dir::Image(SD, LOW),
            "00000000-0000-4000-8000-000000000002/images/9fffffff-ffff-4fff-bfff-ffffffffffff",
        ),
        (
            Dir::Removed(SD, LOW),
            "00000000-0000-4000-8000-000000000002/images/_remove_9fffffff-ffff-4fff-bfff-ffffffffffff",
        ),
        (
            Dir::Removed(SD, HIGH),
            "00000000-0000-4000-8000-000000000002/images/_remove_a0000000-0000-4000-8000-000000000000",
        ),
        (
            Dir::Image(SD, HIGH),
            "00000000-0000-4000-8000-000000000002/images/a0000000-0000-4000-8000-000000000000",
        ),
        (
            Dir::Master(SD),
            "00000000-0000-4000-8000-000000000002/master",
        ),
        (
            Dir::Tasks(SD),
            "00000000-0000-4000-8000-000000000002/master/tasks",
        ),
    ];
    for (i, (dir, path)) in dirs.iter().enumerate() {
        let shown = dir.path();
        assert!(rt; shown.as_str() == *path);
        for (j, (other, other_path)) in dirs.iter().enumerate() {
            assert!(rt; dir.cmp(other) == i.cmp(&j), "{path} {other_path}");
            assert!(rt; dir.is(other) == (i == j));
        }
    }
}

#[test]
fn names_in_order(rt: HostRuntime) {
    let names = [
        (Name::Volume(LOW), "9fffffff-ffff-4fff-bfff-ffffffffffff"),
        (Name::Task(LOW), "9fffffff-ffff-4fff-bfff-ffffffffffff"),
        (
            Name::VolumeLease(LOW),
            "9fffffff-ffff-4fff-bfff-ffffffffffff.lease",
        ),
        (Name::Meta(LOW), "9fffffff-ffff-4fff-bfff-ffffffffffff.meta"),
        (
            Name::MetaNew(LOW),
            "9fffffff-ffff-4fff-bfff-ffffffffffff.meta.new",
        ),
        (
            Name::MetaVolatile(LOW),
            "9fffffff-ffff-4fff-bfff-ffffffffffff.meta.volatile",
        ),
        (
            Name::TaskNew(LOW),
            "9fffffff-ffff-4fff-bfff-ffffffffffff.new",
        ),
        (Name::Inbox, "inbox"),
        (Name::Leases, "leases"),
        (Name::Metadata, "metadata"),
        (Name::MetadataNew, "metadata.new"),
        (Name::Outbox, "outbox"),
    ];
    for (i, (name, text)) in names.iter().enumerate() {
        let shown = name.text();
        assert!(rt; shown.as_str() == *text);
        for (j, (other, other_text)) in names.iter().enumerate() {
            assert!(rt; name.cmp(other) == i.cmp(&j), "{text} {other_text}");
            assert!(rt; name.is(other) == (i == j));
        }
    }
}

#[test]
fn files_in_order(rt: HostRuntime) {
    let low = Place {
        dir: Dir::Image(SD, LOW),
        name: Name::Meta(HIGH),
    };
    let high = Place {
        dir: Dir::Image(SD, HIGH),
        name: Name::Meta(LOW),
    };
    let root = Place {
        dir: Dir::Root,
        name: Name::Leases,
    };
    let path = low.path();
    assert!(rt;
        path.as_str()
            == "00000000-0000-4000-8000-000000000002/images/9fffffff-ffff-4fff-bfff-ffffffffffff/a0000000-0000-4000-8000-000000000000.meta"
    );
    let path = root.path();
    assert!(rt; path.as_str() == "leases");
    assert!(rt; low.cmp(&high) == Ordering::Less);
    assert!(rt; high.cmp(&low) == Ordering::Greater);
    assert!(rt; low.cmp(&low) == Ordering::Equal);
    assert!(rt; low.is(&low));
    assert!(rt; !low.is(&high));
}
