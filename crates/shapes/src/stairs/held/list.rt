// Steps as a list: how it is begun, how it grows, and what it holds.
ghost use Rattle.std.specs.Prelude.{◌≡◌, ◌<◌, ◌≤◌, [], ◌∷◌, ◌++◌, length};
ghost use Rattle.std.specs.Option.{option_map};
ghost use Rattle.shapes.specs.Staircase.{most_steps};
ghost use Rattle.shapes.specs.Steps.{steps_in, few_steps};

use crate::stairs::{MOST_STEPS, Step, Steps};

// No steps. By hand, since no `Default` can be derived of a struct with a ghost field.
impl Default for Steps {
    ghost is_default = { λ s. steps_in s ≡ [] };

    fn default() -> Steps {
        Steps {
            count: 0,
            steps: [Step::default(); MOST_STEPS],
        }
    }
}

impl Steps {
    // These steps, where there are at most 16.
    pub fn new(steps: &[Step]) -> Option<Steps>
        ensures { option_map steps_in result ≡ few_steps steps.now }
    {
        let count = steps.len();
        if count > MOST_STEPS {
            return None;
        }
        let mut array = [Step::default(); MOST_STEPS];
        array[0..count].copy_from_slice(steps);
        Some(Steps {
            count,
            steps: array,
        })
    }

    // One step more, below the others.
    pub fn push(&mut self, step: Step)
        requires { length (steps_in self.old) < most_steps }
        ensures { steps_in self.new ≡ steps_in self.old ++ step ∷ [] }
    {
        self.steps[self.count] = step;
        self.count += 1;
    }

    // All of them.
    pub fn as_slice(&self) -> &[Step]
        ensures items { result.now ≡ steps_in self.now }
        ensures few { length (steps_in self.now) ≤ most_steps }
    {
        &self.steps[0..self.count]
    }
}
