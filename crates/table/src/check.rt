// The check of a caller's table.
ghost use Rattle.std.specs.Prelude.{◌≡◌, ◌<◌, ◌≤◌, ◌⊎◌, length, Decides, MatchOption, MatchResult, ℕ};
ghost use Rattle.sets.specs.Sets.{Has, Basic, Large};
ghost use Rattle.table.specs.Tables.{Proper, Class1};
ghost use Rattle.table.specs.Questions.{places_of, fault_of, FineEntry, LargeWithAll, Second, Class1Basic, Helped, Third, FinePair, FinePairs, Fine, AllFine, FirstUnfit, Found};
ghost use Rattle.table.specs.Means.{listed, means};

use crate::fault::TableFault;
use crate::passed::Passed;
use crate::question::{PairQuestion, Question};
use crate::quorum::Quorum;
use crate::table::Table;
use base::{FAULT_SETS, QUORUMS, UNITS};

// The questions in their order.
const QUESTIONS: [Question; 9] = [
    Question::Units,
    Question::FaultSetCount,
    Question::FaultSet,
    Question::QuorumCount,
    Question::Entry,
    Question::Pairs(PairQuestion::Differ),
    Question::Pairs(PairQuestion::First),
    Question::Pairs(PairQuestion::Second),
    Question::Pairs(PairQuestion::Third),
];

impl Question {
    // The fault that an offence at a place is.
    fn fault(self, place: usize) -> TableFault
        ensures { result ≡ fault_of self place }
    {
        match self {
            Question::Units => TableFault::Units,
            Question::FaultSetCount => TableFault::FaultSetCount,
            Question::FaultSet => TableFault::FaultSet(place),
            Question::QuorumCount => TableFault::QuorumCount,
            Question::Entry => TableFault::Entry(place),
            Question::Pairs(PairQuestion::Differ) => TableFault::Repeated(place),
            Question::Pairs(PairQuestion::First) => TableFault::FirstProperty(place),
            Question::Pairs(PairQuestion::Second) => TableFault::SecondProperty(place),
            Question::Pairs(PairQuestion::Third) => TableFault::ThirdProperty(place),
        }
    }
}

impl Quorum {
    // Does it name a unit, only units below n, and class 1 to 3?
    fn fine(self, n: u32) -> bool
        ensures { Decides result (FineEntry n self) }
    {
        sets::some_unit(self.set) && sets::below(n, self.set) && (1..=3).contains(&self.class)
    }
}

impl<'a> Table<'a> {
    // The passed table, or what the table fails first and where.
    pub fn pass(self) -> Result<Passed<'a>, TableFault>
        ensures { MatchResult result
            (λ p. (means p ≡ listed self.entry) × Proper (listed self.entry))
            (λ e. Found (listed self.entry) e × (Proper (listed self.entry) → ⊥)) }
    {
        self.check()?;
        Ok(Passed { table: self })
    }

    // The first question that fails, with its first place.
    fn check(self) -> Result<(), TableFault>
        ensures { MatchResult result
            (λ _. Proper (listed self.entry))
            (λ e. Found (listed self.entry) e × (Proper (listed self.entry) → ⊥)) }
    {
        for question in &QUESTIONS {
            if let Some(place) = self.first_unfit(*question) {
                return Err(question.fault(place));
            }
        }
        Ok(())
    }

    // The first place that offends.
    fn first_unfit(self, question: Question) -> Option<usize>
        ensures { MatchOption result (AllFine question (listed self.entry)) (λ i. FirstUnfit question (listed self.entry) i) }
    {
        (0..self.places(question)).find(|i| !self.fine(question, *i))
    }

    fn places(self, question: Question) -> usize
        ensures { result ≡ places_of question (listed self.entry) }
    {
        match question {
            Question::Units | Question::FaultSetCount | Question::QuorumCount => 1,
            Question::FaultSet => self.faults.len(),
            Question::Entry | Question::Pairs(_) => self.quorums.len(),
        }
    }

    fn fine(self, question: Question, i: usize) -> bool
        requires { i < places_of question (listed self) }
        ensures { Decides result (Fine question (listed self.entry) i) }
    {
        match question {
            Question::Units => (1..=UNITS).contains(&self.units),
            Question::FaultSetCount => (1..=FAULT_SETS).contains(&self.faults.len()),
            Question::FaultSet => sets::below(self.units, self.faults[i]),
            Question::QuorumCount => (1..=QUORUMS).contains(&self.quorums.len()),
            Question::Entry => self.quorums[i].fine(self.units),
            Question::Pairs(pair) => self.fine_pairs(pair, i),
        }
    }

    // Does no pair or triple that begins at place p offend?
    fn fine_pairs(self, pair: PairQuestion, p: usize) -> bool
        requires { p < length self.quorums.now }
        ensures { Decides result (FinePairs pair (listed self.entry) p) }
    {
        (0..self.quorums.len()).all(|q| self.fine_pair(pair, p, q))
    }

    fn fine_pair(self, pair: PairQuestion, p: usize, q: usize) -> bool
        requires p_in_bounds { p < length self.quorums.now }
        requires q_in_bounds { q < length self.quorums.now }
        ensures { Decides result (FinePair pair (listed self.entry) p q) }
    {
        let a = self.quorums[p];
        let b = self.quorums[q];
        match pair {
            // each pair is asked once, the lower place first
            PairQuestion::Differ => p >= q || !sets::same(a.set, b.set),
            PairQuestion::First => self.first(a, b),
            PairQuestion::Second => self.second(a, b),
            PairQuestion::Third => self.third(a, b),
        }
    }

    // Do the quorums share a basic set?
    fn first(self, a: Quorum, b: Quorum) -> bool
        ensures { Decides result (Basic (listed self.entry).faults (λ x. Has a.set x × Has b.set x)) }
    {
        sets::basic(self.faults, sets::shared(a.set, b.set))
    }

    fn second(self, a: Quorum, b: Quorum) -> bool
        ensures { Decides result (Second (listed self.entry) a b) }
    {
        a.class != 1 || b.class != 1 || self.large_with_all(a, b)
    }

    // Do the two share a large set with every quorum?
    fn large_with_all(self, a: Quorum, b: Quorum) -> bool
        ensures { Decides result (LargeWithAll (listed self.entry) a b) }
    {
        for quorum in self.quorums {
            if !self.share_large(a, b, *quorum) {
                return false;
            }
        }
        true
    }

    // Do three quorums share a large set? (Beside `share_basic`: with the question as a parameter no clause would say that it is answered in one way only.)
    fn share_large(self, a: Quorum, b: Quorum, c: Quorum) -> bool
        ensures { Decides result (Large (listed self.entry).faults (λ x. Has a.set x × Has b.set x × Has c.set x)) }
    {
        let two = sets::shared(a.set, b.set);
        let three = sets::shared(two, c.set);
        sets::large(self.faults, three)
    }

    fn third(self, a: Quorum, b: Quorum) -> bool
        ensures { Decides result (Third (listed self.entry) a b) }
    {
        a.class > 2 || self.large_or_helped(a, b)
    }

    // Do the two share a large set, or does class 1 help them?
    fn large_or_helped(self, a: Quorum, b: Quorum) -> bool
        ensures { Decides result (Large (listed self.entry).faults (λ x. Has a.set x × Has b.set x) ⊎ Helped (listed self.entry) a b) }
    {
        sets::large(self.faults, sets::shared(a.set, b.set)) || self.helped(a, b)
    }

    fn helped(self, a: Quorum, b: Quorum) -> bool
        ensures { Decides result (Helped (listed self.entry) a b) }
    {
        self.some_class1() && self.class1_basic(a, b)
    }

    // Is there a quorum of class 1?
    fn some_class1(self) -> bool
        ensures { Decides result ((f : ℕ) × Class1 (listed self.entry) f) }
    {
        self.quorums.iter().any(|quorum| quorum.class == 1)
    }

    // Does each quorum of class 1 share a basic set with the two?
    fn class1_basic(self, a: Quorum, b: Quorum) -> bool
        ensures { Decides result (Class1Basic (listed self.entry) a b) }
    {
        self.quorums.iter().all(|quorum| quorum.class != 1 || self.share_basic(*quorum, a, b))
    }

    // Do three quorums share a basic set?
    fn share_basic(self, a: Quorum, b: Quorum, c: Quorum) -> bool
        ensures { Decides result (Basic (listed self.entry).faults (λ x. Has a.set x × Has b.set x × Has c.set x)) }
    {
        let two = sets::shared(a.set, b.set);
        let three = sets::shared(two, c.set);
        sets::basic(self.faults, three)
    }
}
