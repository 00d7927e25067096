// The arrangement type. The laws of its two plants stand in the type.
ghost use Rattle.plants.specs.Machine.{Lawful};

mod stepping;

use crate::problem::Problem;
use plants::Plant;

// A problem with a plant and a specification, which every question about pairs and strings is asked of.
#[derive(Drop)]
pub struct Arrangement<'a, P: Plant, S: Plant> {
    pub problem: &'a Problem,
    pub plant: &'a P,
    pub spec: &'a S,
    ghost plant_keeps: { Lawful (P.meaning plant.now) },
    ghost spec_keeps: { Lawful (S.meaning spec.now) },
}
