// What is promised of the schedule.
ghost use Rattle.schedule.specs.Promises.{SchedulePromised, StoredAtWindowOne};

// Each cell once and after those that it reads, the greatest key of those that a step may take, 17 exactly if some read in a circle.
pub fn schedule_promised()
    ensures { SchedulePromised }
{}

// With window 1 the cells in storage order, for all keys.
pub fn stored_at_window_one()
    ensures { StoredAtWindowOne }
{}
