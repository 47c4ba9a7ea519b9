// The laws of the greatest admissible selection.
ghost use Rattle.netting.specs.Mornings.{WorkedMornings};
ghost use Rattle.netting.specs.Laws.{OneGreatest, GreatestIsChosen, SameMorning, GrowsWithCovers, AlwaysSound};

// The laws, and three worked mornings as a check of the definitions. By the first,
// which house a keeper names, where several are short, makes no difference to what is settled.
pub fn laws_stand()
    ensures one_greatest { OneGreatest }
    ensures chosen { GreatestIsChosen }
    ensures same_morning { SameMorning }
    ensures grows { GrowsWithCovers }
    ensures always_sound { AlwaysSound }
    ensures worked { WorkedMornings }
{}
