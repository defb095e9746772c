// Laws of the choice, each the contract of a function.
ghost use Rattle.choice.specs.Chosen.{ChoiceIsOfLive, ChoiceIsOne};
ghost use Rattle.choice.specs.Samples.{SamplesHold};

// For a passed table the choice is free with no live ticket, only t with one, torn with more.
pub fn choice_is_of_live()
    ensures { ChoiceIsOfLive }
{}

// No two of the three hold together.
pub fn choice_is_one()
    ensures { ChoiceIsOne }
{}

// The worked samples give the choices that they should.
pub fn samples_hold()
    ensures { SamplesHold }
{}
