// The answers of the C surface, each as the numbers that a line gives of it.
use crate::answer::Answer;
use answers::changed::HzChanged;
use answers::found::HzFound;
use answers::granted::HzGranted;
use answers::mapped::HzMapped;
use answers::mode_set::HzModeSet;
use answers::new_mapped::HzNewMapped;
use answers::noted::HzNoted;
use answers::posed::HzPosed;
use line_answers::cnf::HzCnf;
use line_answers::first::HzFirst;
use line_answers::modelled::HzModelled;
use line_answers::reading::HzReading;
use line_answers::renamed::HzRenamed;
use line_answers::simplified::HzSimplified;
use line_answers::thinned::HzThinned;
use line_answers::written::HzWritten;

impl From<HzChanged> for Answer {
    fn from(r: HzChanged) -> Answer {
        Answer::new(r.refusal, [0; 5]).with_counts(r.counts)
    }
}

impl From<HzNoted> for Answer {
    fn from(r: HzNoted) -> Answer {
        Answer::new(r.refusal, [r.notes.into(), 0, 0, 0, 0]).with_counts(r.counts)
    }
}

impl From<HzMapped> for Answer {
    fn from(r: HzMapped) -> Answer {
        let values = [r.global.into(), r.notes.into(), 0, 0, 0];
        Answer::new(r.refusal, values).with_counts(r.counts)
    }
}

impl From<HzNewMapped> for Answer {
    fn from(r: HzNewMapped) -> Answer {
        let values = [r.user.into(), r.global.into(), r.notes.into(), 0, 0];
        Answer::new(r.refusal, values).with_counts(r.counts)
    }
}

impl From<HzGranted> for Answer {
    fn from(r: HzGranted) -> Answer {
        let values = [r.solver.into(), r.notes.into(), 0, 0, 0];
        Answer::new(r.refusal, values).with_counts(r.counts)
    }
}

impl From<HzModeSet> for Answer {
    fn from(r: HzModeSet) -> Answer {
        let values = [r.granted.into(), r.user.into(), r.notes.into(), 0, 0];
        Answer::new(r.refusal, values).with_counts(r.counts)
    }
}

impl From<HzPosed> for Answer {
    fn from(r: HzPosed) -> Answer {
        let values = [r.filled.into(), r.notes.into(), 0, 0, 0];
        Answer::new(r.refusal, values).with_counts(r.counts)
    }
}

impl From<HzFound> for Answer {
    fn from(r: HzFound) -> Answer {
        Answer::new(r.refusal, [r.found.into(), r.value.into(), 0, 0, 0])
    }
}

impl From<HzSimplified> for Answer {
    fn from(r: HzSimplified) -> Answer {
        let made = r.made.into();
        let redundant = r.redundant.into();
        Answer::new(
            r.refusal,
            [made, r.lits as u64, redundant, r.bytes as u64, 0],
        )
    }
}

impl From<HzThinned> for Answer {
    fn from(r: HzThinned) -> Answer {
        let values = [r.words as u64, r.half as u64, r.bytes as u64, 0, 0];
        Answer::new(r.refusal, values)
    }
}

impl From<HzRenamed> for Answer {
    fn from(r: HzRenamed) -> Answer {
        let step = r.step;
        let values = [
            step.kind.into(),
            step.a.into(),
            step.b.into(),
            r.lits as u64,
            r.hashes as u64,
        ];
        Answer::new(r.refusal, values)
    }
}

impl From<HzWritten> for Answer {
    fn from(r: HzWritten) -> Answer {
        Answer::new(r.refusal, [r.bytes as u64, 0, 0, 0, 0])
    }
}

impl From<HzModelled> for Answer {
    fn from(r: HzModelled) -> Answer {
        Answer::new(r.refusal, [r.globals.into(), r.users.into(), 0, 0, 0])
    }
}

impl From<HzReading> for Answer {
    fn from(r: HzReading) -> Answer {
        let values = [r.place as u64, r.lits as u64, r.steps as u64, 0, 0];
        Answer::new(r.refusal, values)
    }
}

impl From<HzFirst> for Answer {
    fn from(r: HzFirst) -> Answer {
        Answer::new(r.refusal, [r.place as u64, r.length as u64, 0, 0, 0])
    }
}

impl From<HzCnf> for Answer {
    fn from(r: HzCnf) -> Answer {
        let values = [
            r.place as u64,
            r.variables.into(),
            r.lits as u64,
            r.clauses as u64,
            0,
        ];
        Answer::new(r.refusal, values)
    }
}
