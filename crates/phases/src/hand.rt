//! The hand of a seat, between two steps.

use crate::job_in_hand::JobInHand;
use logical_unit::Job;
use ring_core::Answered;

/// The hand of a seat, between two steps.
#[derive(Drop)]
pub enum Hand {
    /// Nothing.
    Empty,
    /// A job that is to be committed, or is to be answered once its commit is over.
    Job(JobInHand),
    /// A task that is to leave its unit, by the unit's index in the inventory.
    Answered(usize, Answered),
}

impl Hand {
    ghost use Rattle.std.specs.Prelude.{IsTrue, ◌↔◌, ◌≡◌};
    ghost use Rattle.device_model.specs.Parts as plain;
    ghost use Rattle.phases.specs.Giving.{has_receipt};
    ghost use Rattle.phases.specs.Parts.{hand_of, committing_unit, leaving_unit, answering_queue};

    /// Makes a job that is to be committed.
    pub fn taken(job: Job) -> Hand
        ensures { hand_of result ≡ plain.Hand.Taken job }
    {
        Hand::Job(JobInHand::new(job))
    }

    /// Frees the pages that the commit of its job left over, which is done with no lock held.
    pub fn let_go(&mut self)
        ensures { self.new ≡ self.old }
    {
        if let Hand::Job(held) = self {
            held.let_go();
        }
    }

    /// Returns true if there is nothing in it.
    pub fn is_empty(&self) -> bool
        ensures { IsTrue result ↔ (hand_of self.now ≡ plain.Hand.Empty) }
    {
        match self {
            Hand::Empty => true,
            Hand::Job(_) | Hand::Answered(_, _) => false,
        }
    }

    /// Returns true if its job was committed and has a receipt, which is given once its chain is answered.
    pub fn has_receipt(&self) -> bool
        ensures { result ≡ has_receipt self.now }
    {
        match self {
            Hand::Job(held) => held.has_receipt(),
            Hand::Empty | Hand::Answered(_, _) => false,
        }
    }

    /// Returns the index in the inventory of the unit at which its job is to be committed; `None` where none is.
    pub fn committing_unit(&self) -> Option<usize>
        ensures { result ≡ committing_unit (hand_of self.now) }
    {
        match self {
            Hand::Job(held) => {
                if held.is_over() {
                    return None;
                }
                Some(held.job().unit())
            }
            Hand::Empty | Hand::Answered(_, _) => None,
        }
    }

    /// Returns the index in the inventory of the unit that its task is to leave; `None` where none is.
    pub fn leaving_unit(&self) -> Option<usize>
        ensures { result ≡ leaving_unit (hand_of self.now) }
    {
        match self {
            Hand::Answered(unit, _) => Some(*unit),
            Hand::Empty | Hand::Job(_) => None,
        }
    }

    /// Returns the queue of the chain that is to be answered next; `None` where none is.
    pub fn answering_queue(&self) -> Option<u16>
        ensures { result ≡ answering_queue (hand_of self.now) }
    {
        match self {
            Hand::Job(held) => {
                if !held.is_over() {
                    return None;
                }
                Some(held.job().chain().ticket().queue)
            }
            Hand::Empty | Hand::Answered(_, _) => None,
        }
    }
}
