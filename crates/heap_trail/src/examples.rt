//! Worked examples over the definitions alone.
ghost use Rattle.heap_trail.specs.DumpExamples.{DumpIsOf301, FourPinsOpen, PinGivesItsDump, ReferencesLoaded, RewindLosesPin, StarvedPin};
ghost use Rattle.heap_trail.specs.Examples.{LimitsOfOneRegion, LowestRegionFirst, RewindGivesBackCells, KeepOne, RewindTooFar, RefusalsOfMutators, FinishRefusedUntilReady, MarkAndDrainRewound, MarkUndonePushesBack, SweepOrderAndReuse, SweepAndReuseRewound, BarrierLogsOldValues};

/// States the replies of the model's machine in a dozen sessions, and some of the states that they lead to.
pub fn worked_examples()
    ensures limits_of_one_region { LimitsOfOneRegion }
    ensures lowest_region_first { LowestRegionFirst }
    ensures rewind_gives_back_cells { RewindGivesBackCells }
    ensures keep_one { KeepOne }
    ensures rewind_too_far { RewindTooFar }
    ensures refusals_of_mutators { RefusalsOfMutators }
    ensures finish_refused_until_ready { FinishRefusedUntilReady }
    ensures mark_and_drain_rewound { MarkAndDrainRewound }
    ensures mark_undone_pushes_back { MarkUndonePushesBack }
    ensures sweep_order_and_reuse { SweepOrderAndReuse }
    ensures sweep_and_reuse_rewound { SweepAndReuseRewound }
    ensures barrier_logs_old_values { BarrierLogsOldValues }
{}

/// States the replies of the model's machine in sessions with pins, arrays and allocations that fail. One of them gives a dump
/// of 301 bytes, each of which is spelled out.
pub fn worked_dumps()
    ensures pin_gives_its_dump { PinGivesItsDump }
    ensures dump_is_of_301 { DumpIsOf301 }
    ensures rewind_loses_pin { RewindLosesPin }
    ensures four_pins_open { FourPinsOpen }
    ensures starved_pin { StarvedPin }
    ensures references_loaded { ReferencesLoaded }
{}
