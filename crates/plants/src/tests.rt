// What plants are for, on examples.
use crate::{Counter, Misfit, Plant, Product, Table};
use std::test::Fail;

#[test]
fn a_counter_counts_to_its_limit(rt: HostRuntime) {
    let counter = Counter {
        up: 5,
        down: 6,
        limit: 2,
    };
    assert_eq!(rt; counter.count(), 3);
    assert_eq!(rt; counter.alphabet(), 96);
    assert_eq!(rt; counter.step(1, 5), Some(2));
    assert_eq!(rt; counter.step(2, 5), None, "at the limit");
    assert_eq!(rt; counter.step(0, 6), None, "at zero");
    assert_eq!(rt; counter.step(255, 255), None, "no state and no event");
}

#[test]
fn a_product_has_64_states_or_is_void(rt: HostRuntime) {
    let eight = Counter {
        up: 0,
        down: 1,
        limit: 7,
    };
    let other = Counter {
        up: 1,
        down: 2,
        limit: 7,
    };
    let nine = Counter {
        up: 1,
        down: 2,
        limit: 8,
    };
    let whole = Product {
        left: eight,
        right: other,
    };
    assert_eq!(rt; whole.count(), 64);
    assert_eq!(rt;
        whole.step(9, 1),
        Some(2),
        "event 1 takes one from the left and adds one to the right"
    );
    assert_eq!(rt;
        whole.step(1, 1),
        None,
        "the left cannot take one from zero, so neither moves"
    );
    let void = Product {
        left: eight,
        right: nine,
    };
    assert_eq!(rt; void.count(), 0);
    assert_eq!(rt; void.step(0, 0), None);
}

#[test]
fn a_table_is_its_bytes(rt: HostRuntime) -> Result<(), Fail> {
    let mut table = Table::empty(rt.alloc(), 3, 0, 6)?;
    assert_eq!(rt; table.put(0, 2, 1), Ok(()));
    assert_eq!(rt; table.put(0, 2, 2), Err(Misfit::SecondStep));
    assert_eq!(rt;
        table.put(0, 0, 1),
        Err(Misfit::OutOfRange),
        "event 0 is not in the alphabet"
    );
    assert_eq!(rt;
        table.put(0, 1, 3),
        Err(Misfit::OutOfRange),
        "there is no state 3"
    );
    assert_eq!(rt; table.step(0, 2), Some(1));
    assert_eq!(rt; table.step(0, 255), None);
    let short = Table {
        count: 3,
        first: 0,
        alphabet: 6,
        row: [1, 2].to_vec(rt.alloc())?,
    };
    assert_eq!(rt;
        short.count(),
        0,
        "a row of the wrong length makes a void table"
    );
    Ok(())
}
