//! A walk round the ring.

use placement::{Point, walk};
use std::test::Fail;

#[test]
fn walks_once_round(rt: HostRuntime) -> Result<(), Fail> {
    let places = [(40, 3, 0), (10, 1, 0), (30, 1, 1), (20, 2, 0)];
    let mut points = Vec::new(rt.alloc());
    for (hash, worker, index) in places {
        points.push(Point {
            hash,
            worker,
            index,
        })?;
    }
    points.sort()?;
    let cases = [
        (25, 2, [1, 3].as_slice()),
        (41, 3, &[1, 2, 3]),
        (20, 2, &[2, 1]),
        (0, 9, &[1, 2, 3]),
        (25, 0, &[]),
    ];
    for (hash, factor, want) in cases {
        let workers = walk(rt.alloc(), &points, hash, factor)?;
        assert_eq!(rt; workers.as_slice(), want, "{factor} from {hash}");
    }
    Ok(())
}
