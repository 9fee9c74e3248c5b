//! Tallies of jobs.
use asc_model::{Column, Tally};

#[test]
fn columns(rt: HostRuntime) {
    let mut all = Tally::new();
    for (column, counts) in [
        (Column::Stored, [1, 1, 0, 0, 0, 0]),
        (Column::Known, [2, 1, 1, 0, 0, 0]),
        (Column::Empty, [3, 1, 1, 1, 0, 0]),
        (Column::Dropped, [4, 1, 1, 1, 1, 0]),
        (Column::Stopped, [5, 1, 1, 1, 1, 1]),
        (Column::Known, [6, 1, 2, 1, 1, 1]),
    ] {
        let mut one = Tally::new();
        one.note(column);
        assert!(rt; all.ran < 9 && one.ran == 1);
        all.add(&one);
        let now = [
            all.ran,
            all.stored,
            all.known,
            all.empty,
            all.dropped,
            all.stopped,
        ];
        assert_eq!(rt; now, counts);
    }
}
