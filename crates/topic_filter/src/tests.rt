//! Each call against cases that were worked out from the standard's text.

use super::*;
use std::test::Fail;

#[test]
fn names_hold_no_wildcards(rt: HostRuntime) {
    for name in [
        "/",
        "/finance",
        "ACCOUNTS payable",
        "sport/tennis/player1",
        "sport/",
        "$SYS/monitor/Clients",
        "a//b",
        "température",
    ] {
        assert!(rt; is_name(name), "at {name:?}");
    }
    for text in ["", "+", "#", "a/+", "a#", "a\0b"] {
        assert!(rt; !is_name(text), "at {text:?}");
    }
}

#[test]
fn wildcards_stand_alone_in_their_levels(rt: HostRuntime) {
    for filter in [
        "#",
        "+",
        "/",
        "/+",
        "+/+",
        "sport/tennis/#",
        "+/tennis/#",
        "sport/+/player1",
        "$SYS/#",
        "a//b",
        "/#",
    ] {
        assert!(rt; is_filter(filter), "at {filter:?}");
    }
    for text in [
        "",
        "a#",
        "#a",
        "sport/tennis#",
        "a/#/b",
        "#/",
        "sport+",
        "+a",
        "++",
        "+/a+/b",
        "##",
        "a\0b",
        "\0/#",
    ] {
        assert!(rt; !is_filter(text), "at {text:?}");
    }
}

#[test]
fn filters_fit_as_the_standard_says(rt: HostRuntime) {
    for (filter, name, want) in [
        // Section 4.7.1.2.
        ("sport/tennis/player1/#", "sport/tennis/player1", true),
        (
            "sport/tennis/player1/#",
            "sport/tennis/player1/ranking",
            true,
        ),
        (
            "sport/tennis/player1/#",
            "sport/tennis/player1/score/wimbledon",
            true,
        ),
        ("sport/tennis/player1/#", "sport/tennis/player10", false),
        ("sport/tennis/player1/#", "sport/tennis", false),
        ("sport/#", "sport", true),
        ("a/#", "a/", true),
        ("a/#", "b", false),
        ("#", "/", true),
        // Section 4.7.1.3.
        ("sport/tennis/+", "sport/tennis/player1", true),
        ("sport/tennis/+", "sport/tennis/player1/ranking", false),
        ("sport/+", "sport", false),
        ("sport/+", "sport/", true),
        ("+/+", "/finance", true),
        ("/+", "/finance", true),
        ("+", "/finance", false),
        ("+/tennis/#", "sport/tennis", true),
        ("+/tennis/#", "sport/golf", false),
        ("+/+/a", "//a", true),
        ("sport/+/player1", "sport//player1", true),
        ("sport/+/player1", "sport/player1", false),
        // Section 4.7.2.
        ("#", "$SYS/monitor", false),
        ("+/monitor/Clients", "$SYS/monitor/Clients", false),
        ("+", "$x", false),
        ("$SYS/#", "$SYS/monitor/Clients", true),
        ("$SYS/monitor/+", "$SYS/monitor/Clients", true),
        ("a/+", "a/$x", true),
        // Section 4.7.3.
        ("ACCOUNTS", "Accounts", false),
        ("/finance", "finance", false),
        ("a/b", "a/b/", false),
        ("a/b/", "a/b", false),
        ("a/b", "a/bc", false),
        ("température/#", "température/été", true),
    ] {
        assert!(rt; is_filter(filter), "at {filter:?}");
        assert_eq!(rt; matches(filter, name), want, "at {filter:?} and {name:?}");
    }
}

#[test]
fn texts_have_at_most_65535_bytes(rt: HostRuntime) -> Result<(), Fail> {
    let alloc = rt.alloc();
    let mut text = String::new(alloc);
    for _ in 0..65_535 {
        text.push('a')?;
    }
    assert!(rt; is_name(text.as_str()));
    assert!(rt; is_filter(text.as_str()));
    assert!(rt; matches(text.as_str(), text.as_str()));
    text.push('a')?;
    assert!(rt; !is_name(text.as_str()));
    assert!(rt; !is_filter(text.as_str()));
    Ok(())
}
