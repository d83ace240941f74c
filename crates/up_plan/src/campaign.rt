//! Campaigns.
ghost use Rattle.std.specs.Prelude.{◌≡◌};
ghost use Rattle.up_plan.specs.Campaigns.{reach_fits as reach_fits_limits};

use std::alloc::{AllocError, Global};
use std::marker::Model;
use up_canon::file_name::FileName;
use up_canon::ident::Ident;
use up_canon::listed::{Duplicate, Listed};
use up_canon::named::has_name;

/// Which vehicles a campaign reaches: all, or some by name. The type doesn't bound their number; `Campaign::new` tells.
#[derive(Debug, Drop)]
pub enum Reach {
    All,
    Named(Listed<Ident>),
}

impl Reach {
    ghost use Rattle.std.specs.Prelude.{◌≡◌, IfOk, IsOk};
    ghost use Rattle.up_plan.specs.Planning.{reaches as is_reached};
    ghost use Rattle.up_plan.specs.declared.campaign.Reach.TheVariants.{All};

    /// Whether the vehicle is one of them.
    pub fn reaches(&self, vehicle: &Ident) -> bool
        ensures { result ≡ is_reached vehicle.now self.now }
    {
        match self {
            Reach::All => true,
            Reach::Named(vehicles) => has_name(vehicles.as_slice(), vehicle.text()),
        }
    }

    /// An equal one of its own memory; of all vehicles it takes none.
    pub fn copy(&self, alloc: Global) -> Result<Reach, AllocError>
        ensures copied { IfOk result (λ copied. copied ≡ self.now) }
        ensures none { self.now ≡ All → IsOk result }
    {
        match self {
            Reach::All => Ok(Reach::All),
            Reach::Named(vehicles) => Ok(Reach::Named(vehicles.copy(alloc)?)),
        }
    }
}

/// An image that a campaign offers to ECUs of the hardware.
#[derive(Debug, Drop)]
pub struct Item {
    pub hardware: Ident,
    pub file: FileName,
}

impl Duplicate for Item {
    fn copy(&self, alloc: Global) -> Result<Item, AllocError> {
        Ok(Item {
            hardware: self.hardware.copy(alloc)?,
            file: self.file.copy(alloc)?,
        })
    }
}

/// A campaign: its name, the vehicles that it reaches (all, or 1 to 1,000 names), 1 to 16 items, and whether it is running.
#[derive(Debug, Drop)]
pub struct Campaign {
    pub name: Ident,
    pub reach: Reach,
    pub items: Listed<Item>,
    pub running: bool,
}

impl Model for Campaign {
    ghost use Rattle.std.specs.Prelude.{◌≡◌, true};
    ghost use Rattle.up_plan.specs.Campaigns.{CampaignData, campaign_fits};

    ghost Value = { CampaignData };

    ghost view = { λ a. record { name = a.name; reach = a.reach; items = a.items; running = a.running } };

    ghost invariant = { λ a. campaign_fits (record {
      name = a.name;
      reach = a.reach;
      items = a.items;
      running = a.running;
    }) ≡ true };
}

impl Campaign {
    ghost use Rattle.std.specs.Prelude.{◌≡◌, Some, true, MatchResult};
    ghost use Rattle.up_plan.specs.Campaigns.{CampaignData, campaign_fits, campaign_fault};

    /// The running campaign of these parts, or the name of the first member that breaks its limit: `vehicles` or `items`.
    pub fn new(name: Ident, reach: Reach, items: Vec<Item>) -> Result<Campaign, &'static str>
        ensures { let given : CampaignData = record {
          name = name;
          reach = reach;
          items = items.items;
          running = true;
        } in
            MatchResult result (λ campaign. (campaign_fits given ≡ true) × (campaign ≡ given))
            (λ fault. campaign_fault given ≡ Some fault.now) }
    {
        if !reach_fits(&reach) {
            return Err("vehicles");
        }
        if items.is_empty() || items.len() > 16 {
            return Err("items");
        }
        Ok(Campaign {
            name,
            reach,
            items: Listed::new(items),
            running: true,
        })
    }
}

impl Duplicate for Campaign {
    fn copy(&self, alloc: Global) -> Result<Campaign, AllocError> {
        Ok(Campaign {
            name: self.name.copy(alloc)?,
            reach: self.reach.copy(alloc)?,
            items: self.items.copy(alloc)?,
            running: self.running,
        })
    }
}

fn reach_fits(reach: &Reach) -> bool
    ensures { result ≡ reach_fits_limits reach.now }
{
    match reach {
        Reach::All => true,
        Reach::Named(vehicles) => {
            let named = vehicles.as_slice().len();
            1 <= named && named <= 1000
        }
    }
}
