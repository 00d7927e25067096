// What may follow, by what has been read.
#[derive(Clone, Copy)]
pub(crate) enum Stage {
    // nothing has been read: the header
    Header,
    // the site of this number
    Site(u8),
    // all sites have been read: the plant's table
    PlantTable,
    // the plant's steps, its counter or the specification's table
    PlantSteps,
    // the counter has been read: the specification's table
    SpecTable,
    // the specification's steps, or an event to play
    SpecSteps,
    // a further event to play
    Plays,
}
