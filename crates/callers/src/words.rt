//! A caller of `text_forms`.

use text_forms::name::is_path;
use text_forms::number::number_of;

#[test]
fn a_number_is_digits_alone_and_a_path_names_behind_slashes(rt: HostRuntime) {
    assert_eq!(rt;
        [
            is_path("/"),
            is_path("/a/b"),
            is_path("a/b"),
            is_path("/a//b"),
            is_path("/a/.."),
        ],
        [true, true, false, false, false]
    );
    assert_eq!(rt;
        [number_of("007"), number_of("+7"), number_of("4294967296")],
        [Some(7), None, None]
    );
}
