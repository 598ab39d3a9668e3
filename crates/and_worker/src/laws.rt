//! What follows from the definitions alone.
ghost use Rattle.and_worker.specs.Workers.{StaysRight};

/// Law: a flow cache whose entries are what the first operations of tables say, as many as their stamps, is such a cache too for tables that have grown.
pub fn caches_stay_right()
    ensures { StaysRight }
{}
