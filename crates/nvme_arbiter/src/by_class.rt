// A value for each priority class.
use crate::settings::Class;

/// A value for each priority class.
#[derive(Clone, Copy, Debug, Default, PartialEq, Eq)]
pub struct ByClass<T: Copy> {
    pub admin: T,
    pub urgent: T,
    pub high: T,
    pub medium: T,
    pub low: T,
}

impl<T: Copy> ByClass<T> {
    ghost use Rattle.std.specs.Prelude.{◌≡◌};
    ghost use Rattle.nvme_arbiter.specs.ByClass.{of_class, with_class, same_for_all};

    /// The same value for every class.
    pub fn same(value: T) -> ByClass<T>
        ensures { result ≡ same_for_all value }
    {
        ByClass {
            admin: value,
            urgent: value,
            high: value,
            medium: value,
            low: value,
        }
    }

    /// The value of a class.
    pub fn get(&self, class: Class) -> T
        ensures { result ≡ of_class self.now class }
    {
        match class {
            Class::Admin => self.admin,
            Class::Urgent => self.urgent,
            Class::High => self.high,
            Class::Medium => self.medium,
            Class::Low => self.low,
        }
    }

    /// Changes the value of a class.
    pub fn set(&mut self, class: Class, value: T)
        ensures { self.new ≡ with_class self.old class value }
    {
        match class {
            Class::Admin => self.admin = value,
            Class::Urgent => self.urgent = value,
            Class::High => self.high = value,
            Class::Medium => self.medium = value,
            Class::Low => self.low = value,
        }
    }
}
