//! A caller of `control_files`.

use control_files::{file_named, has_file, parse_amount, parse_flag, parse_page_size, show_text};
use machine::amount::Amount;
use machine::config::Placement;
use machine::control::ControlFile;
use machine::id::GroupId;
use machine::page_size::PageSize;
use machine::record::OomGroup;
use machine::reply::Shown;
use std::test::Fail;

#[test]
fn an_amount_is_read_in_bytes_and_shown_in_bytes(rt: HostRuntime) -> Result<(), Fail> {
    let small = PageSize::of_4k();
    let Some(large) = parse_page_size("1M") else {
        return Err(Fail::from("1M is a page size"));
    };
    assert_eq!(rt;
        [
            parse_amount(small, "9K"),
            parse_amount(small, "-1"),
            parse_amount(large, "64M"),
        ],
        [Some(Amount::Pages(2)), None, Some(Amount::Pages(64))]
    );
    assert_eq!(rt;
        [
            parse_flag(Placement::Own, "1"),
            parse_flag(Placement::Own, "01"),
            parse_flag(Placement::Linux, "01"),
        ],
        [Some(OomGroup::Whole), None, Some(OomGroup::Whole)]
    );
    assert_eq!(rt; file_named("memory.max"), Some(ControlFile::Max));
    assert!(rt; !has_file(GroupId::ROOT, ControlFile::Max) && parse_page_size("96K").is_none());
    let of_small = show_text(rt.alloc(), small, Shown::Amount(Amount::Pages(2)))?;
    let of_large = show_text(rt.alloc(), large, Shown::Amount(Amount::Pages(3)))?;
    assert_eq!(rt;
        [of_small.as_str(), of_large.as_str()],
        ["8192\n", "3145728\n"]
    );
    Ok(())
}
