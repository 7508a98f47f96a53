//! A table of three rows.
use sqlite_items::Items;
use std::alloc::Global;
use std::test::Fail;
use vc_labels::{Action, Row, Table, TableFault};
use vc_packets::Memory;
use vc_plan::{CheckRefused, LimitWord};

fn out(lower: u32, limit: u32, first: u8, last: u8) -> Row {
    Row {
        lower,
        limit,
        action: Action::Out { first, last },
    }
}

fn rows(alloc: Global, second: u32) -> Result<Items<Row>, Fail> {
    let portal = Row {
        lower: 20,
        limit: 21,
        action: Action::Portal,
    };
    Ok(Items::from_slice(alloc, &[out(0, 10, 0, 0), out(second, 20, 4, 7), portal])?)
}

/// Headers, and the actions of their intervals.
const FOUND: &[(u16, Option<Action>)] = &[
    (0, Some(Action::Out { first: 0, last: 0 })),
    (9, Some(Action::Out { first: 0, last: 0 })),
    (10, Some(Action::Out { first: 4, last: 7 })),
    (20, Some(Action::Portal)),
    (21, None),
];

#[test]
fn finds_the_action_of_each_interval(rt: HostRuntime) -> Result<(), Fail> {
    let table = Table::new(rows(rt.alloc(), 10)?)
        .ok()
        .ok_or("a lawful table")?;
    for (header, action) in FOUND {
        assert_eq!(rt; table.find(*header), *action, "header {header}");
    }
    Ok(())
}

#[test]
fn a_table_without_rows_finds_nothing(rt: HostRuntime) -> Result<(), Fail> {
    let table = Table::new(Items::new(rt.alloc()))
        .ok()
        .ok_or("a lawful table")?;
    assert_eq!(rt; table.find(0), None);
    Ok(())
}

/// Why these are no table's rows.
fn fault(rows: Items<Row>) -> Option<TableFault> {
    Table::new(rows).err()
}

#[test]
fn refuses_gaps_and_overlaps(rt: HostRuntime) -> Result<(), Fail> {
    let alloc = rt.alloc();
    assert_eq!(rt; fault(rows(alloc, 11)?), Some(TableFault::Gap));
    assert_eq!(rt; fault(rows(alloc, 9)?), Some(TableFault::NotRising));
    let wide = Items::from_slice(alloc, &[out(0, 10, 30, 32)])?;
    assert_eq!(rt; fault(wide), Some(TableFault::BadLink));
    Ok(())
}

#[test]
fn errors_are_told_in_words(rt: HostRuntime) -> Result<(), Fail> {
    let rows = CheckRefused::Table {
        switch: 3,
        fault: TableFault::Gap,
    };
    let nodes = CheckRefused::Limit(LimitWord::Nodes);
    let text = format!(in rt.alloc(); "{rows}; {nodes}; {}", Memory)?;
    let wanted = "the rows of switch 3 are no table: there is a gap between two rows; \
        a limit is broken: there are more than 32 nodes; there is no memory";
    assert_eq!(rt; text.as_str(), wanted);
    Ok(())
}
