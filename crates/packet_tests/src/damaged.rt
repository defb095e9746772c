// Packets with one thing wrong each. Five quorums are listed unless a test says otherwise.
use crate::helpers::check;
use std::test::Fail;
use ticket::{Order, Plan};

#[test]
fn whole_packets_are_read(rt: HostRuntime) -> Result<(), Fail> {
    check::<Plan>(
        &rt,
        5,
        &[
            ("a put", &[1, 0, 1987, 4800, 3200, 1], 24, None),
            ("a row", &[2, 7, 1987, 4800, 3200, 1, 31, 1], 32, None),
            (
                "a report",
                &[3, 2, 2, 0, 1, 1987, 4800, 3200, 1, 16, 0],
                44,
                None,
            ),
            ("a report of nothing", &[3, 1, 1, 0], 16, None),
        ],
    )?;
    check::<Order>(
        &rt,
        1,
        &[("a put of an order", &[1, 3, 1, 65535, 0, 0], 24, None)],
    )
}

#[test]
fn a_length_is_40_at_the_length(rt: HostRuntime) -> Result<(), Fail> {
    check::<Plan>(
        &rt,
        5,
        &[
            ("nothing", &[1], 0, Some((40, 0))),
            ("one word", &[1], 4, Some((40, 4))),
            (
                "less than two words",
                &[1, 0, 1987, 4800, 3200, 1],
                7,
                Some((40, 7)),
            ),
            (
                "no whole words",
                &[1, 0, 1987, 4800, 3200, 1],
                25,
                Some((40, 25)),
            ),
            ("one word too many", &[3, 7, 7], 212, Some((40, 212))),
            ("asked before the kind", &[9, 9, 9], 10, Some((40, 10))),
        ],
    )
}

#[test]
fn a_kind_is_41_at_0(rt: HostRuntime) -> Result<(), Fail> {
    check::<Plan>(
        &rt,
        5,
        &[
            ("0", &[0, 0, 1987, 4800, 3200, 1], 24, Some((41, 0))),
            ("4", &[4, 0, 1987, 4800, 3200, 1], 24, Some((41, 0))),
            ("asked before the view", &[4294967295, 9], 8, Some((41, 0))),
        ],
    )
}

#[test]
fn a_view_is_42_at_4(rt: HostRuntime) -> Result<(), Fail> {
    check::<Plan>(
        &rt,
        5,
        &[
            (
                "a put for view 8",
                &[1, 8, 1987, 4800, 3200, 1],
                24,
                Some((42, 4)),
            ),
            (
                "a row for the last word",
                &[2, 4294967295, 1987, 4800, 3200, 1, 0, 0],
                32,
                Some((42, 4)),
            ),
            ("a report for view 8", &[3, 8, 8], 12, Some((42, 4))),
            ("a report for view 0", &[3, 0, 0], 12, Some((42, 4))),
            ("asked before the count", &[3, 0], 8, Some((42, 4))),
        ],
    )
}

#[test]
fn a_count_is_43_at_8(rt: HostRuntime) -> Result<(), Fail> {
    check::<Plan>(
        &rt,
        5,
        &[
            ("no count", &[3, 2], 8, Some((43, 8))),
            ("another count", &[3, 2, 1, 0], 16, Some((43, 8))),
            (
                "asked before the presence words",
                &[3, 1, 2, 7],
                16,
                Some((43, 8)),
            ),
        ],
    )
}

#[test]
fn a_short_packet_is_44_at_the_length(rt: HostRuntime) -> Result<(), Fail> {
    check::<Plan>(
        &rt,
        5,
        &[
            ("a put", &[1, 0, 1987, 4800, 3200, 1], 20, Some((44, 20))),
            (
                "a put without a ticket",
                &[1, 0, 1987, 4800, 3200, 1],
                8,
                Some((44, 8)),
            ),
            (
                "a row without a mark",
                &[2, 0, 1987, 4800, 3200, 1, 0, 0],
                28,
                Some((44, 28)),
            ),
            (
                "a report without its second entry",
                &[3, 2, 2, 0],
                16,
                Some((44, 16)),
            ),
            (
                "an entry without set and mark",
                &[3, 1, 1, 1, 1987, 4800, 3200, 1],
                32,
                Some((44, 32)),
            ),
            (
                "a report of seven with five entries",
                &[3, 7, 7, 0, 0, 0, 0, 0],
                32,
                Some((44, 32)),
            ),
        ],
    )
}

#[test]
fn a_long_packet_is_44_where_it_should_have_ended(rt: HostRuntime) -> Result<(), Fail> {
    check::<Plan>(
        &rt,
        5,
        &[
            ("a put", &[1, 0, 1987, 4800, 3200, 1, 0], 28, Some((44, 24))),
            (
                "a row of 36 bytes",
                &[2, 0, 1987, 4800, 3200, 1, 0, 0, 0],
                36,
                Some((44, 32)),
            ),
            (
                "a report of one absent entry",
                &[3, 1, 1, 0, 0],
                20,
                Some((44, 16)),
            ),
            (
                "a report of one entry",
                &[3, 1, 1, 1, 1987, 4800, 3200, 1, 0, 0, 9, 9],
                48,
                Some((44, 40)),
            ),
        ],
    )
}

#[test]
fn a_presence_word_is_44_at_the_word(rt: HostRuntime) -> Result<(), Fail> {
    check::<Plan>(
        &rt,
        5,
        &[
            ("the first", &[3, 1, 1, 2], 16, Some((44, 12))),
            (
                "after an entry",
                &[3, 2, 2, 1, 1987, 4800, 3200, 1, 0, 0, 7],
                44,
                Some((44, 40)),
            ),
            (
                "after an absent entry",
                &[3, 2, 2, 0, 7],
                20,
                Some((44, 16)),
            ),
            (
                "in a packet that is also too short",
                &[3, 3, 3, 5],
                16,
                Some((44, 12)),
            ),
            (
                "asked before the tickets",
                &[3, 3, 3, 1, 0, 0, 0, 0, 99, 9, 5],
                44,
                Some((44, 40)),
            ),
        ],
    )
}

#[test]
fn a_ticket_is_45_at_its_first_word(rt: HostRuntime) -> Result<(), Fail> {
    check::<Plan>(
        &rt,
        5,
        &[
            ("no ends", &[1, 0, 1987, 0, 3200, 1], 24, Some((45, 8))),
            (
                "too many ends",
                &[1, 0, 1987, 32769, 3200, 1],
                24,
                Some((45, 8)),
            ),
            (
                "no picks",
                &[2, 0, 1987, 4800, 0, 1, 0, 0],
                32,
                Some((45, 8)),
            ),
            (
                "too many picks",
                &[2, 0, 1987, 4800, 1000001, 1, 0, 0],
                32,
                Some((45, 8)),
            ),
            (
                "in the second entry",
                &[3, 2, 2, 0, 1, 1987, 0, 3200, 1, 0, 0],
                44,
                Some((45, 20)),
            ),
            (
                "asked of every entry before the sets",
                &[
                    3, 2, 2, 1, 1987, 4800, 3200, 1, 32, 0, 1, 1987, 0, 3200, 1, 0, 0,
                ],
                68,
                Some((45, 44)),
            ),
        ],
    )
}

#[test]
fn a_ticket_of_another_kind_is_45(rt: HostRuntime) -> Result<(), Fail> {
    check::<Order>(
        &rt,
        5,
        &[
            ("a plan", &[1, 0, 1987, 4800, 3200, 1], 24, Some((45, 8))),
            ("a run with a datum", &[1, 0, 0, 1, 0, 0], 24, Some((45, 8))),
            ("a hold of no looms", &[1, 0, 1, 0, 0, 0], 24, Some((45, 8))),
            (
                "a hold of too many",
                &[1, 0, 1, 65536, 0, 0],
                24,
                Some((45, 8)),
            ),
            (
                "a cut too far on",
                &[1, 0, 2, 1000001, 0, 0],
                24,
                Some((45, 8)),
            ),
            ("no order", &[1, 0, 3, 1, 0, 0], 24, Some((45, 8))),
            (
                "a last word that is not 0",
                &[1, 0, 2, 1, 0, 1],
                24,
                Some((45, 8)),
            ),
        ],
    )
}

#[test]
fn a_set_is_46_at_its_word(rt: HostRuntime) -> Result<(), Fail> {
    check::<Plan>(
        &rt,
        5,
        &[(
            "the place after the last",
            &[2, 0, 1987, 4800, 3200, 1, 32, 0],
            32,
            Some((46, 24)),
        )],
    )?;
    check::<Plan>(
        &rt,
        31,
        &[(
            "the last bit of 31 quorums",
            &[2, 0, 1987, 4800, 3200, 1, 4294967295, 1],
            32,
            Some((46, 24)),
        )],
    )?;
    check::<Plan>(
        &rt,
        32,
        &[(
            "every bit of 32 quorums",
            &[2, 0, 1987, 4800, 3200, 1, 4294967295, 1],
            32,
            None,
        )],
    )?;
    check::<Plan>(
        &rt,
        5,
        &[
            (
                "in the third entry",
                &[3, 3, 3, 0, 0, 1, 1987, 4800, 3200, 1, 64, 0],
                48,
                Some((46, 40)),
            ),
            (
                "asked of every entry before the marks",
                &[
                    3, 2, 2, 1, 1987, 4800, 3200, 1, 0, 2, 1, 1987, 4800, 3200, 1, 32, 0,
                ],
                68,
                Some((46, 60)),
            ),
        ],
    )
}

#[test]
fn a_mark_is_47_at_its_word(rt: HostRuntime) -> Result<(), Fail> {
    check::<Plan>(
        &rt,
        5,
        &[
            (
                "a mark of 2",
                &[2, 0, 1987, 4800, 3200, 1, 1, 2],
                32,
                Some((47, 28)),
            ),
            (
                "a mark with an empty set",
                &[2, 0, 1987, 4800, 3200, 1, 0, 1],
                32,
                Some((47, 28)),
            ),
            (
                "in the second entry",
                &[
                    3, 2, 2, 1, 1987, 4800, 3200, 1, 3, 1, 1, 1987, 4800, 3200, 1, 0, 1,
                ],
                68,
                Some((47, 64)),
            ),
        ],
    )
}
