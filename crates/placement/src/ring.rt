//! The ring of hashes, and the walk round it.
ghost use Rattle.std.specs.Prelude.{◌≡◌, ◌≤◌, ◌++◌, List, take, map, IfOk, IsSorted};
ghost use Rattle.std.specs.List.{range_with_len};
ghost use Rattle.placement.specs.Ring.{point_cmp, point_of, walked, workers_met};
ghost use Rattle.placement.specs.Config.{IsRing};
ghost use Rattle.placement.specs.declared.ring.Point.{Point};

use crate::fnv1a64;
use lattice_laws::NoMemory;
use std::alloc::Global;

/// How many points each worker has on the ring.
const POINTS_EACH: u16 = 16;

/// A point of a worker on the ring: its hash, the worker's number, and which of the worker's points
/// it is. Ordered by these fields, in this order.
#[derive(Clone, Copy, Debug, PartialEq, Eq, PartialOrd, Ord)]
pub struct Point {
    pub hash: u64,
    pub worker: u16,
    pub index: u16,
}

/// The first `factor` different workers met from the first point whose hash is at least `hash`,
/// going round once; fewer where fewer workers have points. Where no point has such a hash the walk
/// begins at the first point. The points are ascending.
pub fn walk(alloc: Global, points: &[Point], hash: u64, factor: u16) -> Result<Vec<u16>, NoMemory>
    requires { IsSorted point_cmp points.now }
    ensures { IfOk result (λ workers. workers.items ≡ walked points.now hash factor) }
{
    let first = points.partition_point(|point| point.hash < hash);
    let mut workers = Vec::new(alloc);
    meet(&mut workers, &points[first..], factor)?;
    meet(&mut workers, &points[..first], factor)?;
    Ok(workers)
}

/// Goes on past these points, and adds each worker that is new until there are `factor`. The clause
/// says so of any points that were met before.
fn meet(workers: &mut Vec<u16>, points: &[Point], factor: u16) -> Result<(), NoMemory>
    ensures { IfOk result (λ _. (before : List Point)
        → workers.old.items ≡ take factor (workers_met before)
        → workers.new.items ≡ take factor (workers_met (before ++ points.now))) }
{
    for point in points {
        if workers.len() >= usize::from(factor) {
            break;
        }
        if !workers.contains(&point.worker) {
            workers.push(point.worker)?;
        }
    }
    Ok(())
}

/// The points of the workers 1 to `workers`, ascending.
pub(crate) fn points_of_all(alloc: Global, workers: u16) -> Result<Vec<Point>, NoMemory>
    requires { workers ≤ 8 }
    ensures { IfOk result (λ points. IsRing workers points.items) }
{
    let mut points = Vec::new(alloc);
    for worker in 0..workers {
        push_points(alloc, &mut points, worker + 1)?;
    }
    points.sort()?;
    Ok(points)
}

/// Adds the points of one worker.
fn push_points(alloc: Global, points: &mut Vec<Point>, worker: u16) -> Result<(), NoMemory>
    ensures { IfOk result (λ _. points.new.items
        ≡ points.old.items ++ map (point_of worker) (range_with_len 0 16)) }
{
    for index in 0..POINTS_EACH {
        points.push(hashed_point(alloc, worker, index)?)?;
    }
    Ok(())
}

/// The worker's point of this index.
fn hashed_point(alloc: Global, worker: u16, index: u16) -> Result<Point, NoMemory>
    ensures { IfOk result (λ point. point ≡ point_of worker index) }
{
    let text = format!(in alloc; "w{worker}#{index}")?;
    Ok(Point {
        hash: fnv1a64(text.as_bytes()),
        worker,
        index,
    })
}
