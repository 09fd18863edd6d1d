use crate::mini::{Desk, reaching, row};
use figures::set::FigureSet;
use key_cases::pier::Pier;
use keys::berth::Berth;
use keys::route::RouteBerth;
use searchers::modes::LinearKind;
use searchers::rows::Row;
use searchers::search::{LinearSearch, PartitionSearcher, SortedSearch};

fn at(route: u16, berth: u16) -> Row<RouteBerth> {
    row(RouteBerth { route, berth })
}

// A run of rows with the keys of `from` on, `step` apart.
fn berths(from: u16, step: u16) -> [Row<Berth>; 256] {
    let mut rows = [row(Berth(0)); 256];
    for (place, n) in rows.iter_mut().zip(0..256u16) {
        *place = row(Berth(from.wrapping_add(step.wrapping_mul(n))));
    }
    rows
}

#[test]
fn nothing_passes_an_unsettled_row(rt: HostRuntime) {
    let rows = [row(Berth(8)), row(Berth(7)), row(Berth(7))];
    let set = FigureSet::One { first: reaching(1) };
    let mut desk = Desk::new();
    assert_eq!(rt;
        desk.put_out(&LinearSearch::new(LinearKind::Linear), &rows, &set),
        Ok(0)
    );
}

#[test]
fn sorted_puts_out_more(rt: HostRuntime) {
    let rows = [row(Berth(1)), row(Berth(1)), row(Berth(2))];
    let set = FigureSet::One { first: reaching(1) };
    let mut sorted = Desk::new();
    assert_eq!(rt; sorted.put_out(&SortedSearch, &rows, &set), Ok(2));
    let mut linear = Desk::new();
    assert_eq!(rt;
        linear.put_out(&LinearSearch::new(LinearKind::Linear), &rows, &set),
        Ok(1)
    );
}

#[test]
fn partly_sorted_ends_routes(rt: HostRuntime) {
    let rows = [at(1, 4), at(1, 5), at(1, 4), at(2, 4)];
    let set = FigureSet::One { first: reaching(1) };
    let mut partly = Desk::new();
    assert_eq!(rt;
        partly.put_out(&LinearSearch::new(LinearKind::PartlySorted), &rows, &set),
        Ok(3)
    );
    let mut sorted = Desk::new();
    assert_eq!(rt; sorted.put_out(&SortedSearch, &rows, &set), Err(2));
}

#[test]
fn largest_reach_counts(rt: HostRuntime) {
    let rows = [row(Berth(1)), row(Berth(1)), row(Berth(1))];
    let set = FigureSet::Two {
        first: reaching(0),
        second: reaching(2),
    };
    let mut desk = Desk::new();
    assert_eq!(rt;
        desk.put_out(&LinearSearch::new(LinearKind::Linear), &rows, &set),
        Ok(1)
    );
}

#[test]
fn order_from_last_row(rt: HostRuntime) {
    let rows = [row(Berth(4)), row(Berth(4))];
    assert_eq!(rt; SortedSearch.check_order(&rows, &Some(Berth(4))), None);
    assert_eq!(rt; SortedSearch.check_order(&rows, &Some(Berth(5))), Some(0));
    assert_eq!(rt;
        LinearSearch::new(LinearKind::Linear).check_order(&rows, &Some(Berth(5))),
        None
    );
}

#[test]
fn empty_batch(rt: HostRuntime) {
    let rows: [Row<Berth>; 0] = [];
    let sorted = SortedSearch.evaluate_partition_batches(&rows);
    let linear = LinearSearch::new(LinearKind::Linear).evaluate_partition_batches(&rows);
    assert_eq!(rt; sorted.count, 0);
    assert_eq!(rt; sorted.ids[0], 256);
    assert_eq!(rt; sorted, linear);
}

#[test]
fn one_key(rt: HostRuntime) {
    let rows = berths(9, 0);
    let sorted = SortedSearch.evaluate_partition_batches(&rows);
    let linear = LinearSearch::new(LinearKind::PartlySorted).evaluate_partition_batches(&rows);
    assert_eq!(rt; sorted.count, 1);
    assert_eq!(rt; sorted.range(0), (0, 256));
    assert_eq!(rt; sorted, linear);
}

#[test]
fn different_keys(rt: HostRuntime) {
    let rows = berths(0, 1);
    let sorted = SortedSearch.evaluate_partition_batches(&rows);
    let linear = LinearSearch::new(LinearKind::Linear).evaluate_partition_batches(&rows);
    assert_eq!(rt; sorted.count, 256);
    assert_eq!(rt; sorted.range(255), (255, 256));
    assert_eq!(rt; sorted, linear);
}

// Multiples of 512 begin their search at one slot.
#[test]
fn crowded_slot(rt: HostRuntime) {
    let rows = berths(0, 512);
    let linear = LinearSearch::new(LinearKind::Linear).evaluate_partition_batches(&rows);
    assert_eq!(rt; linear.count, 128);
    assert_eq!(rt; linear.ids[129], 1);
    assert_eq!(rt; linear.range(1), (1, 130));
}

// A row at a berth of a pier. Piers that are even share one hash, and the berths of a pier are equal.
fn moored(pier: u16, berth: u16) -> Row<Pier> {
    row(Pier { pier, berth })
}

#[test]
fn colliding_hashes(rt: HostRuntime) {
    let rows = [
        moored(2, 0),
        moored(4, 0),
        moored(2, 1),
        moored(6, 0),
        moored(4, 1),
    ];
    let groups = LinearSearch::new(LinearKind::Linear).evaluate_partition_batches(&rows);
    assert_eq!(rt; groups.count, 3);
    assert_eq!(rt; groups.ids[2], 0);
    assert_eq!(rt; groups.ids[3], 2);
    assert_eq!(rt; groups.ids[4], 1);
    assert_eq!(rt; groups.range(1), (1, 5));
}

// A searcher for sorted batches still groups one that is not.
#[test]
fn unsorted_batch(rt: HostRuntime) {
    let rows = [moored(2, 0), moored(1, 0), moored(2, 1)];
    let sorted = SortedSearch.evaluate_partition_batches(&rows);
    let linear = LinearSearch::new(LinearKind::Linear).evaluate_partition_batches(&rows);
    assert_eq!(rt; sorted.count, 2);
    assert_eq!(rt; sorted, linear);
}

#[test]
fn equal_keys_that_are_not_identical(rt: HostRuntime) {
    let rows = [moored(2, 0), moored(2, 1), moored(2, 0), moored(3, 0)];
    let groups = SortedSearch.evaluate_partition_batches(&rows);
    assert_eq!(rt; SortedSearch.check_order(&rows, &None), None);
    assert_eq!(rt; groups.range(0), (0, 3));
    let two = Pier { pier: 2, berth: 1 };
    assert!(rt; !SortedSearch.has_ended(&two, &Some(Pier { pier: 2, berth: 0 })));
    assert!(rt; SortedSearch.has_ended(&two, &Some(Pier { pier: 3, berth: 0 })));
}
