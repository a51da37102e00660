//! The labels of all images: they are read before the first call, and each load gives them a new
//! generation, and so does each disk that is attached.
ghost use Rattle.std.specs.Prelude.{◌≡◌, ◌≢◌, ◌<◌, ℕ, map, true, false, length, None, Some, IfSome, IsSome, IsSomeAnd};
ghost use Rattle.paraid_imgrack.specs.Calls.{CanGetLabel, IsLookedAt, KeepsCauses, KeepsFound, KeepsKnown, cause_at, image_cause, has_file};
ghost use Rattle.paraid_imgrack.specs.Images.{AreTrueMisfits, Fit, image_misfit, image_slot, image_slot_at, image_tail, label_at, misfit_at, tail_at, IsDrawn, IsLook, IsMissed, IsTold};
ghost use Rattle.paraid_imgrack.specs.Labels.{AreUnnamed, Names, SuitsBeside, known_array, label_in};
ghost use Rattle.paraid_imgrack.specs.Looks.{HasNoMisfits, HasTrueMisfits, IsFitting};
ghost use Rattle.paraid_rack.specs.declared.call.Power.TheVariants.{Parked};

use crate::identity::{Identity, Labels, Misfit};
use crate::image::Claim;
use crate::rack::ImageRack;
use paraid_base::DiskNo;
use paraid_rack::Power;
use std::fs::{self, File, Files};
use std::io::{self, Read};

// Sixteen bytes that nobody has drawn before.
fn draw<F: Files<File = File>>(files: &F) -> Option<[u8; 16]> {
    let mut number = [0; 16];
    let Ok(mut file) = fs::open(files, "/dev/urandom") else {
        return None;
    };
    match file.read_exact(&mut number) {
        Ok(()) => Some(number),
        Err(_) => None,
    }
}

impl<F: Files<File = File> + Drop> ImageRack<F> {
    /// What a new array would write over, in the first slot where it would.
    pub fn claim(&self) -> Option<(DiskNo, Claim)> {
        for disk in 0..self.images.len() {
            if let Some(claim) = self.images[disk].claim(&self.files) {
                return Some((disk as u8, claim));
            }
        }
        None
    }

    /// Reads the labels of the images that spin, and says whether each image belongs into its slot.
    /// Nothing is written before the first sync. A rack whose images do not fit is to be used no
    /// more.
    pub fn has_fitting_images(&mut self) -> bool
        ensures look { IsLook self.old.images.items self.new.images.items }
        ensures fits { result ≡ true → IsFitting self.new }
        ensures same { result ≡ true
            → map image_misfit self.new.images.items ≡ map image_misfit self.old.images.items }
        ensures misfit { result ≡ false → (d : ℕ) × IsSome (misfit_at self.new.images.items d) }
        ensures misfits { HasNoMisfits self.old → HasTrueMisfits self.new }
        ensures drawn { self.old.identity ≡ None → AreUnnamed (label_at self.new.images.items)
            → IfSome self.new.identity (IsDrawn self.new.images.items) }
        ensures read { (d : ℕ) → IsLookedAt self.new.images.items d }
        ensures causes { KeepsCauses self.old.images.items self.new.images.items }
    {
        let labels = self.read_labels();
        let Some(identity) = self.identify(&labels) else {
            return true;
        };
        self.identity = Some(identity);
        self.fits(&labels, &identity)
    }

    /// Why the image in a slot does not belong there, where one was read.
    pub fn misfit(&self, disk: DiskNo) -> Option<Misfit>
        ensures { result ≡ misfit_at self.now.images.items disk }
    {
        if (disk as usize) < self.images.len() {
            self.images[disk as usize].misfit
        } else {
            None
        }
    }

    /// Why the first call on a disk failed that did, or why it was lost at the load; of a disk that
    /// was to be attached, since then.
    pub fn cause(&self, disk: DiskNo) -> Option<io::Error>
        ensures { result ≡ cause_at self.now.images.items disk }
    {
        if (disk as usize) < self.images.len() {
            self.images[disk as usize].cause
        } else {
            None
        }
    }

    /// Gives the images that were attached since the load the labels of a new array, unless they
    /// are known to be of one.
    pub fn label_array(&mut self)
        ensures kept { IsSome self.old.identity → self.new ≡ self.old }
    {
        if self.identity.is_some() {
            return;
        }
        if let Some(array) = draw(&self.files) {
            self.identity = Some(Identity::new(array, self.count_attached()));
            self.renew_labels();
        }
    }

    /// Each image that spins gets the new generation, and once all have it, what is known of the
    /// others. It is done once in a load, and once for each disk that is attached since. Of a disk
    /// that is spun up in between, which has its label by then, the others know it from the next
    /// sync on.
    ///
    /// So no label knows more than what the disks keep, and a stop between two leaves none refused,
    /// but in a case that the README names.
    pub(crate) fn renew_labels(&mut self)
        ensures slots { map image_slot self.new.images.items
            ≡ map image_slot self.old.images.items }
        ensures told { IfSome self.new.identity IsTold }
        ensures known { known_array self.new.identity ≡ known_array self.old.identity }
        ensures keeps { IfSome self.old.identity (λ old. IfSome self.new.identity
            (KeepsKnown self.old.images.items old)) }
        ensures found { KeepsFound self.old.images.items self.new.images.items }
    {
        if self.are_labels_due() {
            self.give_labels();
        }
    }

    // It is apart from the test whether labels are due, since in most syncs they are not.
    #[inline(never)]
    fn give_labels(&mut self)
        ensures slots { map image_slot self.new.images.items
            ≡ map image_slot self.old.images.items }
        ensures told { IfSome self.new.identity IsTold }
        ensures known { known_array self.new.identity ≡ known_array self.old.identity }
        ensures keeps { IfSome self.old.identity (λ old. IfSome self.new.identity
            (KeepsKnown self.old.images.items old)) }
        ensures found { KeepsFound self.old.images.items self.new.images.items }
    {
        if let Some(identity) = self.identity {
            let marked = self.mark_images(identity);
            self.tell(marked);
        }
    }

    fn are_labels_due(&self) -> bool
        ensures { result ≡ false → IfSome self.now.identity IsTold }
    {
        match &self.identity {
            Some(identity) => identity.is_new || identity.has_news,
            None => false,
        }
    }

    // Gives the images that spin a new generation, and says what is known from then on. Each hears
    // of those that have got it before.
    fn mark_images(&mut self, identity: Identity) -> Identity
        ensures slots { map image_slot self.new.images.items
            ≡ map image_slot self.old.images.items }
        ensures marked { result.is_new ≡ false }
        ensures known { known_array (Some result) ≡ known_array (Some identity) }
        ensures keeps { KeepsKnown self.old.images.items identity result }
        ensures found { KeepsFound self.old.images.items self.new.images.items }
    {
        if !identity.is_new {
            return identity;
        }
        let mut next = identity;
        next.is_new = false;
        for disk in 0..self.images.len() {
            if self.mark_image(disk, &next, true) {
                next.mark(disk);
            }
        }
        next
    }

    // Whether the image in a slot of the array has the label of this generation from now on.
    fn mark_image(&mut self, disk: usize, identity: &Identity, is_heard: bool) -> bool
        ensures slots { map image_slot self.new.images.items
            ≡ map image_slot self.old.images.items }
        ensures found { KeepsFound self.old.images.items self.new.images.items }
        ensures given { result ≡ true → CanGetLabel self.old.images.items disk }
    {
        if disk >= self.images.len() || disk >= identity.disks as usize {
            return false;
        }
        self.images[disk].give_label(&identity.label(disk as u8, is_heard))
    }

    /// At the end, too: what was spun up or attached since the last sync is made known to the
    /// others.
    pub fn end_load(&mut self)
        ensures slots { map image_slot self.new.images.items
            ≡ map image_slot self.old.images.items }
        ensures known { known_array self.new.identity ≡ known_array self.old.identity }
        ensures told { IfSome self.old.identity (λ known.
            self.new.identity ≡ Some (record known { has_news = false })) }
        ensures found { KeepsFound self.old.images.items self.new.images.items }
    {
        if let Some(identity) = self.identity {
            self.tell(identity);
        }
    }

    // Makes the news known to the images that have a label of this generation. Each is told what
    // the others know of itself only as long as none was missed: so none says that it is known to
    // be newer than it is.
    fn tell(&mut self, identity: Identity)
        ensures slots { map image_slot self.new.images.items
            ≡ map image_slot self.old.images.items }
        ensures told { self.new.identity ≡ Some (record identity { has_news = false }) }
        ensures found { KeepsFound self.old.images.items self.new.images.items }
    {
        let mut is_heard = !self.misses_one(&identity);
        for disk in 0..self.images.len() {
            is_heard &= self.mark_again(disk, &identity, is_heard);
        }
        let mut told = identity;
        told.has_news = false;
        self.identity = Some(told);
    }

    // Whether an image of the array that has a label could not be given one of this generation.
    fn misses_one(&self, identity: &Identity) -> bool
        ensures one { result ≡ true → (d : ℕ) × ((d < identity.now.disks)
            × IsMissed self.now.images.items identity.now d) }
        ensures none { result ≡ false → (d : ℕ) → d < identity.now.disks
            → IsMissed self.now.images.items identity.now d → ⊥ }
    {
        for disk in 0..self.images.len() {
            if disk < identity.disks as usize && self.misses(disk, identity) {
                return true;
            }
        }
        false
    }

    fn misses(&self, disk: usize, identity: &Identity) -> bool
        requires { disk < length self.now.images.items }
        ensures yes { result ≡ true → IsMissed self.now.images.items identity.now disk }
        ensures no { result ≡ false → IsMissed self.now.images.items identity.now disk → ⊥ }
    {
        !identity.is_marked(disk)
            && identity.is_seen(disk)
            && self.images[disk].power == Power::Spinning
    }

    // Whether the image in a slot has heard the news, if there are any and it is to be told. One
    // that has failed since it was marked has not: it may come back by another hand.
    fn mark_again(&mut self, disk: usize, identity: &Identity, is_heard: bool) -> bool
        requires { disk < length self.old.images.items }
        ensures slots { map image_slot self.new.images.items
            ≡ map image_slot self.old.images.items }
        ensures found { KeepsFound self.old.images.items self.new.images.items }
    {
        if !identity.has_news || !identity.is_marked(disk) {
            return true;
        }
        self.mark_image(disk, identity, is_heard) || self.images[disk].power == Power::Parked
    }

    fn read_labels(&mut self) -> Labels
        ensures look { IsLook self.old.images.items self.new.images.items }
        ensures misfits { map image_misfit self.new.images.items
            ≡ map image_misfit self.old.images.items }
        ensures labels { (d : ℕ) → d < 8 → label_in result d ≡ label_at self.new.images.items d }
        ensures known { self.new.identity ≡ self.old.identity }
        ensures read { (d : ℕ) → IsLookedAt self.new.images.items d }
        ensures causes { KeepsCauses self.old.images.items self.new.images.items }
    {
        let mut labels = [None; 8];
        for disk in 0..self.images.len() {
            self.read_label(disk, &mut labels);
        }
        labels
    }

    fn read_label(&mut self, disk: usize, labels: &mut Labels)
        requires { disk < length self.old.images.items }
        ensures look { IsLook self.old.images.items self.new.images.items }
        ensures misfits { map image_misfit self.new.images.items
            ≡ map image_misfit self.old.images.items }
        ensures here { label_in labels.new disk ≡ label_at self.new.images.items disk }
        ensures others { (e : ℕ) → e ≢ disk → label_in labels.new e ≡ label_in labels.old e }
        ensures kept { (e : ℕ) → e ≢ disk
            → label_at self.new.images.items e ≡ label_at self.old.images.items e }
        ensures known { self.new.identity ≡ self.old.identity }
        ensures causes { KeepsCauses self.old.images.items self.new.images.items }
        ensures read { IsLookedAt self.new.images.items disk }
        ensures left { (e : ℕ) → e ≢ disk → IsLookedAt self.old.images.items e
            → IsLookedAt self.new.images.items e }
    {
        labels[disk] = self.images[disk].read_label();
    }

    // The array that the images are of, by their labels. One without labels gets a number, where
    // all of its disks that are there spin, so that none of them has a label that was not read.
    fn identify(&self, labels: &Labels) -> Option<Identity>
        ensures names { Names (label_in labels.now) result }
        ensures drawn { AreUnnamed (label_in labels.now)
            → IfSome result (IsDrawn self.now.images.items) }
    {
        if let Some(identity) = Identity::of(labels) {
            return Some(identity);
        }
        let disks = self.disks_by_log()?;
        if self.parks_below(disks) {
            return None;
        }
        Some(Identity::new(draw(&self.files)?, disks))
    }

    // Whether one of the first disks is parked.
    fn parks_below(&self, disks: u8) -> bool
        ensures one { result ≡ true → (d : ℕ) × ((d < disks)
            × ((image_slot_at self.now.images.items d).power ≡ Parked)) }
        ensures none { result ≡ false → (d : ℕ) → d < disks
            → (image_slot_at self.now.images.items d).power ≢ Parked }
    {
        for disk in 0..self.images.len() {
            if disk < disks as usize && self.parks(disk) {
                return true;
            }
        }
        false
    }

    fn parks(&self, disk: usize) -> bool
        requires { disk < length self.now.images.items }
        ensures yes { result ≡ true → (image_slot_at self.now.images.items disk).power ≡ Parked }
        ensures no { result ≡ false → (image_slot_at self.now.images.items disk).power ≢ Parked }
    {
        self.images[disk].power == Power::Parked
    }

    // The number of disks that the first log disk with a log says.
    fn disks_by_log(&self) -> Option<u8> {
        for disk in 0..self.images.len() {
            if disk < 2
                && let Some(disks) = self.images[disk].disks_by_log()
            {
                return Some(disks);
            }
        }
        None
    }

    // Whether each label is one of its slot, none is of another time than these, and no image is
    // bare where its slot is known. Why one is not as it should be is kept with its image.
    fn fits(&mut self, labels: &Labels, identity: &Identity) -> bool
        ensures look { IsLook self.old.images.items self.new.images.items }
        ensures tails { map image_tail self.new.images.items
            ≡ map image_tail self.old.images.items }
        ensures causes { map image_cause self.new.images.items
            ≡ map image_cause self.old.images.items }
        ensures opened { map has_file self.new.images.items ≡ map has_file self.old.images.items }
        ensures known { self.new.identity ≡ self.old.identity }
        ensures fits { result ≡ true
            → Fit (label_in labels.now) self.new.images.items identity.now }
        ensures same { result ≡ true
            → map image_misfit self.new.images.items ≡ map image_misfit self.old.images.items }
        ensures misfit { result ≡ false → (d : ℕ) × IsSome (misfit_at self.new.images.items d) }
        ensures misfits { AreTrueMisfits (label_in labels.now) self.old.images.items
            (Some identity.now)
            → AreTrueMisfits (label_in labels.now) self.new.images.items (Some identity.now) }
    {
        let mut fits = true;
        for disk in 0..self.images.len() {
            fits &= self.fits_slot(disk, labels, identity);
        }
        fits
    }

    fn fits_slot(&mut self, disk: usize, labels: &Labels, identity: &Identity) -> bool
        requires { disk < length self.old.images.items }
        ensures look { IsLook self.old.images.items self.new.images.items }
        ensures tails { map image_tail self.new.images.items
            ≡ map image_tail self.old.images.items }
        ensures causes { map image_cause self.new.images.items
            ≡ map image_cause self.old.images.items }
        ensures opened { map has_file self.new.images.items ≡ map has_file self.old.images.items }
        ensures known { self.new.identity ≡ self.old.identity }
        ensures fits { result ≡ true → disk < identity.now.disks
            → SuitsBeside identity.now (label_in labels.now)
            (tail_at self.new.images.items disk) disk None }
        ensures same { result ≡ true
            → map image_misfit self.new.images.items ≡ map image_misfit self.old.images.items }
        ensures misfit { result ≡ false → IsSomeAnd (misfit_at self.new.images.items disk)
            (λ misfit. (disk < identity.now.disks) × SuitsBeside identity.now
            (label_in labels.now) (tail_at self.new.images.items disk) disk (Some misfit)) }
        ensures others { (e : ℕ) → e ≢ disk
            → misfit_at self.new.images.items e ≡ misfit_at self.old.images.items e }
    {
        match identity.misfit_beside(labels, &self.images[disk].tail(), disk as u8) {
            Some(misfit) => {
                self.images[disk].misfit = Some(misfit);
                false
            }
            None => true,
        }
    }

    fn count_attached(&self) -> u8 {
        let mut count: u8 = 0;
        for disk in 0..self.images.len() {
            if self.images[disk].attached {
                count = count.saturating_add(1);
            }
        }
        count
    }
}
